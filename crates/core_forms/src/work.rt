ghost use Rattle.std.specs.Prelude.{◌≡◌};
ghost use Rattle.core_forms.specs.Working.{lists_of};

use crate::core_form::{Binder, CoreExpr};
use crate::words::Keyword;
use scheme_data::{Datum, Place, Stack, Text};
use sqlite_items::Items;

/// A form that is to be expanded: a datum, or what a derived form means. The source's data that are left of a
/// derived form stay together, since a list that is built anew for each clause would cost a walk.
#[derive(Drop)]
pub enum Open {
    Datum(Datum),
    /// The word of a special form for sure, and the forms behind it.
    Row(Place, Keyword, Stack<Datum>),
    /// `(let* (x ...) b ...)`, the bindings and the body.
    LetStar(Place, Stack<Datum>, Stack<Datum>),
    /// `(let (x) (let* (y ...) b ...))`
    LetFirst(Place, Datum, Stack<Datum>, Stack<Datum>),
    /// `(if a b (word c ...))`
    Choice(Place, Datum, Datum, Keyword, Stack<Datum>),
    /// `(if a (and b ...) #f)`
    Both(Place, Datum, Stack<Datum>),
    /// `(let ((t a)) (if t b (word c ...)))`, the names of both places of t being given.
    Kept(Place, Bound, Datum, Keyword, Stack<Datum>),
}

/// A new name where it is bound and where it is used, and its value.
#[derive(Drop)]
pub struct Bound {
    pub binder: Datum,
    pub name: Datum,
    pub value: Datum,
}

/// What is left to expand.
#[derive(Drop)]
pub enum Work {
    Raw(Open),
    /// The same at a name of a `letrec`, where it has to be a `lambda` form.
    LambdaForm(Place, Datum),
    /// The forms of a body.
    Body(Place, Stack<Datum>),
    /// A body of one form, `(let* (x ...) b ...)`.
    LetStar(Place, Stack<Datum>, Stack<Datum>),
    /// A body of one form, `(if a b (word c ...))`.
    Choice(Place, Datum, Datum, Keyword, Stack<Datum>),
    /// A definition of a variable behind functions, and the forms that follow.
    Variable(Place, Binder, Open, Stack<Datum>),
    /// What is refused here once its turn comes.
    Refused(Place),
}

/// In how many lists of its core form a part stands.
#[derive(Clone, Copy, Debug, PartialEq, Eq)]
pub enum Lists {
    One,
    Three,
}

impl Lists {
    /// As a number.
    pub fn count(self) -> u32
        ensures count { result ≡ lists_of self }
    {
        match self {
            Lists::One => 1,
            Lists::Three => 3,
        }
    }
}

/// A part of a core form.
#[derive(Drop)]
pub struct Part {
    pub lists: Lists,
    pub work: Work,
}

/// The kind of a core form that has parts, with the names that it binds.
#[derive(Drop)]
pub enum Kind {
    Lambda(Items<Binder>),
    If,
    Set(Text, u32),
    Begin,
    Let(Items<Binder>),
    Letrec(Items<Binder>),
    BindExit(Binder),
    UnwindProtect,
    Call,
}

/// A core form of which the parts are to be expanded, the first on top: those outside of its names, and those within.
#[derive(Drop)]
pub struct Node {
    pub at: Place,
    pub kind: Kind,
    /// How deep lists nest in what is written of it so far.
    pub nesting: u32,
    pub outer: Stack<Part>,
    pub inner: Stack<Part>,
}

/// A core form of which the parts may still have to be expanded.
#[derive(Drop)]
pub enum Made {
    /// A name.
    Leaf(CoreExpr),
    Constant(Place, Datum),
    Quoted(Place, Datum),
    Node(Node),
}

/// What stands in the place of a form.
#[derive(Drop)]
pub enum Turned {
    /// Another form.
    Again(Open),
    Core(Made),
}

/// A definition of a function in a body: its name, and the forms behind the word of its `lambda` form, which stands here.
#[derive(Drop)]
pub struct Function {
    pub binder: Binder,
    pub at: Place,
    pub forms: Stack<Datum>,
}
