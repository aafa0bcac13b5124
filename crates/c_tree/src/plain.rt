ghost use Rattle.std.specs.Prelude.{◌≡◌};
ghost use Rattle.c_tree.specs.Lexical.{is_plain};

/// Whether a byte stands as it is in a string: those from 32 to 126 but `"` and `\\`.
pub fn is_plain(byte: u8) -> bool
    ensures { result ≡ is_plain byte }
{
    b' ' <= byte && byte <= b'~' && byte != b'"' && byte != b'\\'
}
