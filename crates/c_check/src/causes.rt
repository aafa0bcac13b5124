ghost use Rattle.std.specs.Prelude.{◌≡◌};
ghost use Rattle.c_meaning.specs.Breaches.{unless, name_breaches};
ghost use Rattle.c_check.specs.Firsts.{first};

use crate::types::is_asked;
use c_meaning::BadCause;
use c_tree::CTy;

/// The cause, where a rule isn't kept.
pub fn unless(cause: BadCause, kept: bool) -> Option<BadCause>
    ensures { result ≡ first (unless cause kept) }
{
    if kept { None } else { Some(cause) }
}

/// What is wrong with a name whose type is this, where one is asked for.
pub fn name_fault(asked: Option<CTy>, found: Option<CTy>) -> Option<BadCause>
    ensures { result ≡ first (name_breaches asked found) }
{
    match found {
        None => Some(BadCause::Undeclared),
        Some(t) => unless(BadCause::Types, is_asked(asked, t)),
    }
}
