ghost use Rattle.std.specs.Prelude.{◌≡◌};
ghost use Rattle.prim_table.specs.Table.{type_name, is_type, type_named};

/// A type that a declaration may write after a name (the Bigloo manual's type identifiers).
#[derive(Clone, Copy, Debug, PartialEq, Eq)]
pub enum Ty {
    Obj,
    Long,
    Char,
    Bool,
    Pair,
    Vector,
    Bstring,
    Symbol,
    Procedure,
}

impl Ty {
    /// The identifier, as declarations and error texts spell it.
    pub fn name(self) -> &'static [u8]
        ensures { result.now ≡ type_name self }
    {
        match self {
            Ty::Obj => b"obj",
            Ty::Long => b"long",
            Ty::Char => b"char",
            Ty::Bool => b"bool",
            Ty::Pair => b"pair",
            Ty::Vector => b"vector",
            Ty::Bstring => b"bstring",
            Ty::Symbol => b"symbol",
            Ty::Procedure => b"procedure",
        }
    }
}

fn is_type(name: &[u8], ty: Ty) -> bool
    ensures { result ≡ is_type name.now ty }
{
    name == ty.name()
}

/// The type of an identifier; none where it is that of no type.
pub fn type_by_name(name: &[u8]) -> Option<Ty>
    ensures { result ≡ type_named name.now }
{
    if is_type(name, Ty::Obj) {
        Some(Ty::Obj)
    } else if is_type(name, Ty::Long) {
        Some(Ty::Long)
    } else if is_type(name, Ty::Char) {
        Some(Ty::Char)
    } else if is_type(name, Ty::Bool) {
        Some(Ty::Bool)
    } else if is_type(name, Ty::Pair) {
        Some(Ty::Pair)
    } else if is_type(name, Ty::Vector) {
        Some(Ty::Vector)
    } else if is_type(name, Ty::Bstring) {
        Some(Ty::Bstring)
    } else if is_type(name, Ty::Symbol) {
        Some(Ty::Symbol)
    } else if is_type(name, Ty::Procedure) {
        Some(Ty::Procedure)
    } else {
        None
    }
}
