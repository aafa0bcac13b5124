ghost use Rattle.std.specs.Prelude.{◌≡◌, IfOk};
ghost use Rattle.scheme_data.specs.Data.{place_of};

use crate::{OutOfMemory, Text};
use sqlite_items::{Boxed, Items};
use std::alloc::Global;

/// A place in a text: line and column, both from 1, columns in bytes.
#[derive(Clone, Copy, Debug, PartialEq, Eq)]
pub struct Place {
    pub line: u32,
    pub column: u32,
}

/// What a limit counts.
#[derive(Clone, Copy, Debug, PartialEq, Eq)]
pub enum LimitKind {
    /// The bytes of a source or of a script.
    Bytes,
    /// How deep data nest, or the lists of a core form.
    Depth,
    /// The uses of macros that are expanded in a module.
    Expansions,
    /// The data in the results of these, together.
    Filled,
}

/// A datum, with the place of its first token.
#[derive(Drop)]
pub enum Datum {
    /// A fixnum.
    Int(Place, i64),
    /// A character.
    Chr(Place, u8),
    /// A truth value.
    Bool(Place, bool),
    /// `#unspecified`.
    Unspec(Place),
    /// A string.
    Str(Place, Text),
    /// A symbol with its mark, which is 0 for none.
    Sym(Place, Text, u32),
    /// A list that ends in `()`.
    List(Place, Items<Datum>),
    /// One or more items and a tail, which is no list of either kind.
    Dotted(Place, Items<Datum>, Boxed<Datum>),
    /// A vector.
    Vector(Place, Items<Datum>),
}

impl Datum {
    /// The place of its first token.
    pub fn place(&self) -> Place
        ensures { result ≡ place_of self.now }
    {
        match self {
            Datum::Int(at, _) => *at,
            Datum::Chr(at, _) => *at,
            Datum::Bool(at, _) => *at,
            Datum::Unspec(at) => *at,
            Datum::Str(at, _) => *at,
            Datum::Sym(at, _, _) => *at,
            Datum::List(at, _) => *at,
            Datum::Dotted(at, _, _) => *at,
            Datum::Vector(at, _) => *at,
        }
    }
    /// A copy of it.
    #[cycle(copy)]
    pub fn copy(&self, alloc: Global) -> Result<Datum, OutOfMemory>
        ensures { IfOk result (λ d. d ≡ self.now) }
    {
        Ok(match self {
            Datum::Int(at, n) => Datum::Int(*at, *n),
            Datum::Chr(at, b) => Datum::Chr(*at, *b),
            Datum::Bool(at, t) => Datum::Bool(*at, *t),
            Datum::Unspec(at) => Datum::Unspec(*at),
            Datum::Str(at, text) => Datum::Str(*at, text.copy(alloc)?),
            Datum::Sym(at, name, mark) => Datum::Sym(*at, name.copy(alloc)?, *mark),
            Datum::List(at, ds) => Datum::List(*at, copy_all(alloc, ds.as_slice())?),
            Datum::Dotted(at, ds, tail) => {
                let items = copy_all(alloc, ds.as_slice())?;
                let tail = tail.get().copy(alloc)?;
                Datum::Dotted(*at, items, Boxed::new(alloc, tail)?)
            }
            Datum::Vector(at, ds) => Datum::Vector(*at, copy_all(alloc, ds.as_slice())?),
        })
    }
}

/// Copies of these, in their order.
#[cycle(copy)]
fn copy_all(alloc: Global, ds: &[Datum]) -> Result<Items<Datum>, OutOfMemory>
    ensures { IfOk result (λ items. items ≡ ds.now) }
{
    let mut items = Items::new(alloc);
    for d in ds {
        items.push(d.copy(alloc)?)?;
    }
    Ok(items)
}
