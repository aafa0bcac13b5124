ghost use Rattle.std.specs.Prelude.{◌≡◌};
ghost use Rattle.syntax_rules.specs.Templates.{depth, path_at};

use scheme_data::Text;
use sqlite_items::{Boxed, Items};

/// A datum without parts, in a pattern or a template.
#[derive(Drop)]
pub enum Constant {
    Int(i64),
    Chr(u8),
    Bool(bool),
    Unspec,
    Str(Text),
}

/// What a datum has to be like.
#[derive(Drop)]
pub enum Pattern {
    /// Anything, for which a name stands.
    Any,
    /// The symbol of this name.
    Literal(Text),
    /// A constant of the same kind and value.
    Constant(Constant),
    /// A list of these.
    Exactly(Items<Pattern>),
    /// A list of these, and then of any number of the last.
    Dots(Items<Pattern>, Boxed<Pattern>),
}

/// What is made of a use.
#[derive(Drop)]
pub enum Template {
    /// What stands for the name with this number.
    Given(usize),
    /// A new symbol.
    Fresh(Text),
    /// A constant.
    Constant(Constant),
    /// A list.
    Compound(Items<Template>),
    /// An element that repeats, with the numbers of the names in it.
    Repeated(Items<usize>, Boxed<Template>),
}

/// One list further on the way to what stands for a name.
#[derive(Clone, Copy)]
pub enum Step {
    /// To the element at a place.
    Item(usize),
    /// To one of the elements that repeat, the first of which is at a place.
    Row(usize),
}

/// The way to what stands for a name.
pub type Path = Items<Step>;

/// The way to what stands for the name with a number.
pub(crate) fn path_at(paths: &[Path], number: usize) -> &[Step]
    ensures { result.now ≡ path_at paths.now number }
{
    match paths.get(number) {
        Some(path) => path.as_slice(),
        None => &[],
    }
}

/// Under how many `...` a name stands.
pub(crate) fn depth_of(path: &[Step]) -> usize
    ensures { result ≡ depth path.now }
{
    let mut rows = 0;
    for step in path {
        if let Step::Row(_) = step {
            rows += 1;
        }
    }
    rows
}
