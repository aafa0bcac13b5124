// Strings in a C text.
ghost use Rattle.std.specs.Prelude.{◌≡◌, ◌++◌, ◌∷◌, OnOk};
ghost use Rattle.c_tree.specs.Lexical.{Str};
ghost use Rattle.c_write.specs.Adds.{Adds, anything, apart};
ghost use Rattle.c_write.specs.Escapes.{escaped_byte, escaped};

use c_tree::is_plain;
use scheme_data::{OutOfMemory, Text};

fn put_escaped_byte(out: &mut Text, byte: u8) -> Result<(), OutOfMemory>
    ensures { OnOk result (out.new ≡ out.old ++ escaped_byte byte) }
{
    if is_plain(byte) {
        return out.push(byte);
    }
    if byte == b'"' || byte == b'\\' {
        return out.extend(&[b'\\', byte]);
    }
    out.extend(&[
        b'\\',
        b'0' + byte / 64,
        b'0' + byte / 8 % 8,
        b'0' + byte % 8,
    ])
}

fn put_escaped(out: &mut Text, bytes: &[u8]) -> Result<(), OutOfMemory>
    ensures { OnOk result (out.new ≡ out.old ++ escaped bytes.now) }
{
    for byte in bytes {
        put_escaped_byte(out, *byte)?;
    }
    Ok(())
}

pub fn put_string(out: &mut Text, bytes: &[u8]) -> Result<(), OutOfMemory>
    ensures { OnOk result (Adds anything apart out.old out.new (λ ts. Str bytes.now ∷ ts)) }
{
    out.push(b'"')?;
    put_escaped(out, bytes)?;
    out.push(b'"')?;
    Ok(())
}
