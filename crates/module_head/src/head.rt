use prim_table::Ty;
use scheme_data::{List, Place, Text, TextList};

/// The head of a module: what its clauses say, each list in clause order (the Bigloo manual, "Modules").
#[derive(Drop)]
pub struct Head {
    pub name: Text,
    pub imports: List<Import>,
    pub exports: List<Entry>,
    pub statics: List<Entry>,
    pub externs: List<Extern>,
    pub main: Option<MainClause>,
}

/// An item of an `import` clause: a module, and the names that are imported from it, or none for all that it exports.
#[derive(Drop)]
pub struct Import {
    pub at: Place,
    pub module_name: Text,
    pub names: Option<TextList>,
}

/// An item of an `export` or `static` clause. A variable has no parameters.
#[derive(Drop)]
pub struct Entry {
    pub at: Place,
    pub kind: EntryKind,
    pub name: Text,
    pub ty: Option<Ty>,
    pub params: List<Param>,
}

/// What an entry declares.
#[derive(Clone, Copy, Debug, PartialEq, Eq)]
pub enum EntryKind {
    /// A variable, `x`.
    Var,
    /// A function, `(f x ...)`.
    Fun,
    /// A function whose body stands in the interface, `(inline f x ...)`.
    Inline,
}

/// A name where it is bound, with the type that is written behind it, as in `x::long`.
#[derive(Drop)]
pub struct Param {
    pub at: Place,
    pub name: Text,
    pub ty: Option<Ty>,
}

/// An item of an `extern` clause: a C function under a Scheme name.
#[derive(Drop)]
pub struct Extern {
    pub at: Place,
    pub name: Text,
    pub ty: Option<Ty>,
    pub params: List<Ty>,
    pub c_name: Text,
}

/// A `main` clause: the function with which the program begins.
#[derive(Drop)]
pub struct MainClause {
    pub at: Place,
    pub name: Text,
}
