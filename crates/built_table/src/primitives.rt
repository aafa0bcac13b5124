ghost use Rattle.std.specs.Prelude.{◌≡◌, Some, IfSome, length, slice_get};
ghost use Rattle.built_table.specs.Table.{table_type, built_type, type_name, primitives, in_table, name_of, params_of, result_of, built, prim_named};

use prim_table::prim_row;

/// A type of the table that programs are built with so far.
#[derive(Clone, Copy, Debug, PartialEq, Eq)]
pub enum Ty {
    Obj,
    Long,
    Bool,
}

impl Ty {
    /// What a type of the whole table is built as.
    pub fn of_table(ty: prim_table::Ty) -> Ty
        ensures { result ≡ built_type ty }
    {
        match ty {
            prim_table::Ty::Long => Ty::Long,
            prim_table::Ty::Bool => Ty::Bool,
            _ => Ty::Obj,
        }
    }

    /// Its place in the whole table.
    pub fn in_table(self) -> prim_table::Ty
        ensures { result ≡ table_type self }
    {
        match self {
            Ty::Obj => prim_table::Ty::Obj,
            Ty::Long => prim_table::Ty::Long,
            Ty::Bool => prim_table::Ty::Bool,
        }
    }

    /// The identifier, as error texts spell it.
    pub fn name(self) -> &'static [u8]
        ensures { result.now ≡ type_name self }
    {
        self.in_table().name()
    }
}

/// A primitive of the table that programs are built with so far.
#[derive(Clone, Copy, Debug, PartialEq, Eq)]
pub enum Primitive {
    Add,
    Less,
    Display,
    Newline,
}

static PRIMITIVES: [Primitive; 4] = [
    Primitive::Add,
    Primitive::Less,
    Primitive::Display,
    Primitive::Newline,
];

impl Primitive {
    /// All of them.
    pub fn all() -> &'static [Primitive]
        ensures { result.now ≡ primitives }
    {
        &PRIMITIVES
    }

    /// The primitive that stands in the whole table so; none exactly where it isn't built.
    pub fn of_table(p: prim_table::Primitive) -> Option<Primitive>
        ensures value { result ≡ built p }
        ensures place { IfSome result (λ q. in_table q ≡ p) }
    {
        match p {
            prim_table::Primitive::Add => Some(Primitive::Add),
            prim_table::Primitive::Less => Some(Primitive::Less),
            prim_table::Primitive::Display => Some(Primitive::Display),
            prim_table::Primitive::Newline => Some(Primitive::Newline),
            _ => None,
        }
    }

    /// Its place in the whole table.
    pub fn in_table(self) -> prim_table::Primitive
        ensures place { result ≡ in_table self }
        ensures built { built result ≡ Some self }
    {
        match self {
            Primitive::Add => prim_table::Primitive::Add,
            Primitive::Less => prim_table::Primitive::Less,
            Primitive::Display => prim_table::Primitive::Display,
            Primitive::Newline => prim_table::Primitive::Newline,
        }
    }

    /// The name, as sources and error texts spell it.
    pub fn name(self) -> &'static [u8]
        ensures { result.now ≡ name_of self }
    {
        prim_row(self.in_table()).name
    }

    /// How many arguments it takes.
    pub fn arity(self) -> usize
        ensures { result ≡ length (params_of self) }
    {
        prim_row(self.in_table()).count as usize
    }

    /// The type of an argument; none where it takes no more.
    pub fn param(self, place: usize) -> Option<Ty>
        ensures { result ≡ slice_get (params_of self) place }
    {
        let row = prim_row(self.in_table());
        let ty = row.params[..row.count as usize].get(place)?;
        Some(Ty::of_table(*ty))
    }

    /// The type of what it gives.
    pub fn result(self) -> Ty
        ensures { result ≡ result_of self }
    {
        Ty::of_table(prim_row(self.in_table()).result)
    }
}

/// The primitive of a name; none exactly where the name is another or its primitive isn't built.
#[tactic(auto, unfolding(crate::specs::Table::prim_named))]
pub fn prim_by_name(name: &[u8]) -> Option<Primitive>
    ensures { result ≡ prim_named name.now }
{
    prim_table::prim_by_name(name).and_then(Primitive::of_table)
}
