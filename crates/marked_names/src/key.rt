ghost use Rattle.std.specs.Prelude.{◌≡◌, IfOk};
ghost use Rattle.marked_names.specs.Keys.{key_of};

use scheme_data::{OutOfMemory, Text};
use std::alloc::Global;

/// A name with a mark as one text, which no other has.
pub(crate) fn key(alloc: Global, name: &[u8], mark: u32) -> Result<Text, OutOfMemory>
    ensures { IfOk result (λ key. key ≡ key_of name.now mark) }
{
    let mut key = Text::from_bytes(alloc, name)?;
    key.extend(&mark.to_be_bytes())?;
    Ok(key)
}
