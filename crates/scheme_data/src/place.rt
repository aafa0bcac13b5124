ghost use Rattle.std.specs.Prelude.{◌≡◌};
ghost use Rattle.scheme_data.specs.Places.{next_number, after};

use crate::datum::Place;

fn next(n: u32) -> u32
    ensures { result ≡ next_number n }
{
    if n < u32::MAX { n + 1 } else { n }
}

/// The place after a byte at a place.
pub fn place_after(at: Place, b: u8) -> Place
    ensures { result ≡ after at b }
{
    if b == b'\n' {
        Place {
            line: next(at.line),
            column: 1,
        }
    } else {
        Place {
            line: at.line,
            column: next(at.column),
        }
    }
}
