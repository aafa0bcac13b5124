// Which bytes are of one kind.
ghost use Rattle.std.specs.Prelude.{◌≡◌};
ghost use Rattle.scheme_tokens.specs.Words.{is_space};

pub fn space(b: u8) -> bool
    ensures { result ≡ is_space b }
{
    b == b' ' || b == b'\n' || b == b'\t' || b == 12 || b == b'\r'
}
