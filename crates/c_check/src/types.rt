ghost use Rattle.std.specs.Prelude.{◌≡◌};
ghost use Rattle.c_meaning.specs.Plain.{same_type, is_byte, number_fits, is_error};
ghost use Rattle.c_meaning.specs.Breaches.{is_asked, number_asked, is_written, is_within};

use c_tree::{CTy, Wants};
use prim_table::ErrCode;
use scheme_data::is_in_range;

/// Whether two types are one.
pub fn same_type(a: CTy, b: CTy) -> bool
    ensures { result ≡ same_type a b }
{
    a == b
}

/// Whether a type is the one that is asked for. Where none is, any will do.
pub fn is_asked(asked: Option<CTy>, t: CTy) -> bool
    ensures { result ≡ is_asked asked t }
{
    match asked {
        None => true,
        Some(u) => same_type(u, t),
    }
}

fn is_byte(n: i64) -> bool
    ensures { result ≡ is_byte n }
{
    0 <= n && n < 256
}

fn number_fits(n: i64, t: CTy) -> bool
    ensures { result ≡ number_fits n t }
{
    match t {
        CTy::Obj => false,
        CTy::Long => is_in_range(n),
        CTy::Char => is_byte(n),
        CTy::Int => is_byte(n),
    }
}

/// Whether a number fits the type that is asked for.
pub fn number_asked(asked: Option<CTy>, n: i64) -> bool
    ensures { result ≡ number_asked asked n }
{
    match asked {
        None => true,
        Some(t) => number_fits(n, t),
    }
}

fn is_error(n: i64) -> bool
    ensures { result ≡ is_error n }
{
    i64::from(ErrCode::WrongType.number()) <= n && n <= i64::from(ErrCode::ZeroDivisor.number())
}

fn is_within(most: u32, n: i64) -> bool
    ensures { result ≡ is_within most n }
{
    0 <= n && n <= i64::from(most)
}

/// Whether a number may stand where one is asked for as it is written.
pub fn is_written(wants: Wants, n: i64) -> bool
    ensures { result ≡ is_written wants n }
{
    match wants {
        Wants::AnError => is_error(n),
        Wants::AnArity => is_within(255, n),
        Wants::Slots => is_within(16_777_215, n),
        Wants::ASlot => true,
        _ => false,
    }
}
