// The primitives by their names.
ghost use Rattle.std.specs.Prelude.{◌≡◌, IsTrue, find};
ghost use Rattle.std.specs.Cmp.Lexicographic.{slice_cmp};
ghost use Rattle.std.specs.Ordering.{nat_cmp};
ghost use Rattle.prim_table.specs.Table.{name_of, is_name, primitives, prim_named};
ghost use Rattle.prim_table.specs.Order.{are_rising};

use crate::{Primitive, prim_row};
use std::cmp::Ordering;

// In the order of the names' bytes.
static PRIMITIVES: [Primitive; 75] = [
    Primitive::Multiply,
    Primitive::MultiplyFixnum,
    Primitive::Add,
    Primitive::AddFixnum,
    Primitive::Subtract,
    Primitive::SubtractFixnum,
    Primitive::Less,
    Primitive::LessOrEqual,
    Primitive::LessOrEqualFixnum,
    Primitive::LessFixnum,
    Primitive::Equal,
    Primitive::EqualFixnum,
    Primitive::Greater,
    Primitive::GreaterOrEqual,
    Primitive::GreaterOrEqualFixnum,
    Primitive::GreaterFixnum,
    Primitive::Append,
    Primitive::Assq,
    Primitive::IsBoolean,
    Primitive::Caddr,
    Primitive::Cadr,
    Primitive::Car,
    Primitive::Cddr,
    Primitive::Cdr,
    Primitive::CharToInteger,
    Primitive::CharLess,
    Primitive::CharEqual,
    Primitive::IsChar,
    Primitive::Cons,
    Primitive::Display,
    Primitive::IsEofObject,
    Primitive::IsSame,
    Primitive::IsEquivalent,
    Primitive::Error,
    Primitive::IsEven,
    Primitive::IntegerToChar,
    Primitive::IsInteger,
    Primitive::Length,
    Primitive::List,
    Primitive::IsList,
    Primitive::MakeString,
    Primitive::MakeVector,
    Primitive::Memq,
    Primitive::Modulo,
    Primitive::Newline,
    Primitive::Not,
    Primitive::IsNull,
    Primitive::NumberToString,
    Primitive::IsOdd,
    Primitive::IsPair,
    Primitive::PeekChar,
    Primitive::IsProcedure,
    Primitive::Quotient,
    Primitive::ReadChar,
    Primitive::Remainder,
    Primitive::Reverse,
    Primitive::SetCar,
    Primitive::SetCdr,
    Primitive::StringToNumber,
    Primitive::StringAppend,
    Primitive::StringLength,
    Primitive::StringRef,
    Primitive::StringLess,
    Primitive::StringEqual,
    Primitive::IsString,
    Primitive::Substring,
    Primitive::SymbolToString,
    Primitive::IsSymbol,
    Primitive::VectorLength,
    Primitive::VectorRef,
    Primitive::VectorSet,
    Primitive::IsVector,
    Primitive::Write,
    Primitive::WriteChar,
    Primitive::IsZero,
];

/// The primitives, which a source calls by their names, in the order of the names' bytes.
pub fn primitives_by_name() -> &'static [Primitive]
    ensures { result.now ≡ primitives }
{
    &PRIMITIVES
}

fn compare(p: Primitive, name: &[u8]) -> Ordering
    ensures { result ≡ slice_cmp nat_cmp (name_of p) name.now }
{
    prim_row(p).name.cmp(name)
}

/// The one of these of a name, where they stand in the order of their names.
fn found_in(rising: &[Primitive], name: &[u8]) -> Option<Primitive>
    requires { IsTrue (are_rising rising.now) }
    ensures { result ≡ find (is_name name.now) rising.now }
{
    match rising.binary_search_by(|p| compare(*p, name)) {
        Ok(place) => Some(rising[place]),
        Err(_) => None,
    }
}

/// The primitive of a name; none exactly for other names.
#[tactic(auto, unfolding(crate::specs::Table::prim_named))]
pub fn prim_by_name(name: &[u8]) -> Option<Primitive>
    ensures { result ≡ prim_named name.now }
{
    found_in(&PRIMITIVES, name)
}
