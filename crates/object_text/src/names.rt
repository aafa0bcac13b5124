// A name after a front.
ghost use Rattle.std.specs.Prelude.{IfSome, IfNone};
ghost use Rattle.object_text.specs.Header.{IsNamed, NotNamed};

use scheme_data::{has_symbol_form, symbol_len};

/// A name, and what follows it.
#[derive(Drop)]
pub struct Named<'a> {
    pub name: &'a [u8],
    pub rest: &'a [u8],
}

/// The name after a front, as long as it can be; none where there is no such front, or no name.
pub fn named_after<'a>(bytes: &'a [u8], front: &[u8]) -> Option<Named<'a>>
    ensures some { IfSome result (λ n. IsNamed bytes.now front.now n.name.now n.rest.now) }
    ensures none { IfNone result (NotNamed bytes.now front.now) }
{
    let after = bytes.strip_prefix(front)?;
    let (name, rest) = after.split_at(symbol_len(after));
    if !has_symbol_form(name) {
        return None;
    }
    Some(Named { name, rest })
}
