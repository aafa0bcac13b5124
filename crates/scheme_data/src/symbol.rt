ghost use Rattle.std.specs.Prelude.{◌≡◌, ◌≤◌, ◌↔◌, IsTrue, length};
ghost use Rattle.std.specs.List.{prefix_len, list_all};
ghost use Rattle.scheme_data.specs.Decimal.{is_digit};
ghost use Rattle.scheme_data.specs.Symbols.{is_symbol_byte, is_sign_or_dot, begins_with_digit, is_dot, begins_as_symbol, has_symbol_form, is_symbol, IsSymbol};

/// Whether a byte is a decimal digit.
pub fn is_digit(b: u8) -> bool
    ensures { result ≡ is_digit b }
{
    b.is_ascii_digit()
}

/// Whether a symbol may have the byte (R5RS section 2.1).
pub fn is_symbol_byte(b: u8) -> bool
    ensures { result ≡ is_symbol_byte b }
{
    (b'0' <= b && b <= b':')
        || (b'<' <= b && b <= b'Z')
        || (b'a' <= b && b <= b'z')
        || b == b'!'
        || (b'$' <= b && b <= b'&')
        || (b'*' <= b && b <= b'+')
        || (b'-' <= b && b <= b'/')
        || b == b'^'
        || b == b'_'
        || b == b'~'
}

/// How many symbol bytes stand at the front.
pub fn symbol_len(bytes: &[u8]) -> usize
    ensures value { result ≡ prefix_len is_symbol_byte bytes.now }
    ensures within { result ≤ length bytes.now }
{
    let mut n = 0;
    while n < bytes.len() && is_symbol_byte(bytes[n]) {
        n += 1;
    }
    n
}

fn is_sign_or_dot(b: u8) -> bool
    ensures { result ≡ is_sign_or_dot b }
{
    b == b'+' || b == b'-' || b == b'.'
}

fn begins_with_digit(bytes: &[u8]) -> bool
    ensures { result ≡ begins_with_digit bytes.now }
{
    match bytes {
        [] => false,
        [b, ..] => is_digit(*b),
    }
}

/// Whether the bytes are a dot alone.
pub fn is_dot(bytes: &[u8]) -> bool
    ensures { result ≡ is_dot bytes.now }
{
    bytes == b".".as_slice()
}

pub(crate) fn begins_as_symbol(bytes: &[u8]) -> bool
    ensures { result ≡ begins_as_symbol bytes.now }
{
    let [first, rest @ ..] = bytes else {
        return false;
    };
    !is_dot(bytes) && !is_digit(*first) && !(is_sign_or_dot(*first) && begins_with_digit(rest))
}

/// Whether a run of symbol bytes is a symbol.
pub fn has_symbol_form(bytes: &[u8]) -> bool
    ensures { result ≡ has_symbol_form bytes.now }
{
    bytes.len() <= 255 && begins_as_symbol(bytes)
}

fn are_symbol_bytes(bytes: &[u8]) -> bool
    ensures { result ≡ list_all is_symbol_byte bytes.now }
{
    bytes.iter().all(|b| is_symbol_byte(*b))
}

/// Whether the bytes are a symbol (R5RS section 7.1.1).
pub fn is_symbol(bytes: &[u8]) -> bool
    ensures test { result ≡ is_symbol bytes.now }
    ensures meaning { IsTrue result ↔ IsSymbol bytes.now }
{
    has_symbol_form(bytes) && are_symbol_bytes(bytes)
}
