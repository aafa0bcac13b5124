// Which words are names.
ghost use Rattle.std.specs.Prelude.{◌≡◌};
ghost use Rattle.std.specs.List.{list_all};
ghost use Rattle.scheme_data.specs.Decimal.{is_digit};
ghost use Rattle.c_tree.specs.Names.{is_alphanumeric, is_numeral, is_prefixed, is_numbered, is_main, is_local_name, anything, is_maker, is_initializer, is_entry};

use scheme_data::is_digit;

/// Whether a byte is a letter or a digit.
pub fn tells_alphanumeric(byte: u8) -> bool
    ensures { result ≡ is_alphanumeric byte }
{
    is_digit(byte) || b'A' <= byte && byte <= b'Z' || b'a' <= byte && byte <= b'z'
}

// Parts -------------------------------------------------------------------------------------

fn all_digits(bytes: &[u8]) -> bool
    ensures { result ≡ list_all is_digit bytes.now }
{
    bytes.iter().all(|byte| is_digit(*byte))
}

fn names_numeral(bytes: &[u8]) -> bool
    ensures { result ≡ is_numeral bytes.now }
{
    if bytes.is_empty() {
        return false;
    }
    if bytes.len() == 1 {
        return is_digit(bytes[0]);
    }
    b'0' < bytes[0] && bytes[0] <= b'9' && all_digits(&bytes[1..])
}

fn names_numbered(letter: u8, word: &[u8]) -> bool
    ensures { result ≡ is_numbered letter word.now }
{
    if word.is_empty() {
        return false;
    }
    word[0] == letter && names_numeral(&word[1..])
}

fn begins_with_letter(letter: u8, word: &[u8]) -> bool
    ensures { result ≡ is_prefixed letter anything word.now }
{
    2 <= word.len() && word[0] == letter && word[1] == b'_'
}

// Functions ---------------------------------------------------------------------------------

/// Whether a word is `main`.
pub fn names_main(word: &[u8]) -> bool
    ensures { result ≡ is_main word.now }
{
    word == b"main".as_slice()
}

/// Whether a function's name is that of a maker, by how it begins.
pub fn begins_as_maker(word: &[u8]) -> bool
    ensures { result ≡ is_maker word.now }
{
    begins_with_letter(b'c', word)
}

/// Whether a function's name is that of an initialisation, by how it begins.
pub fn begins_as_initializer(word: &[u8]) -> bool
    ensures { result ≡ is_initializer word.now }
{
    begins_with_letter(b'i', word)
}

/// Whether a function's name is that of an entry, by how it begins.
pub fn begins_as_entry(word: &[u8]) -> bool
    ensures { result ≡ is_entry word.now }
{
    begins_with_letter(b'e', word)
}

/// Whether a word may be a local's name.
#[tactic(auto, unfolding(crate::specs::Names::is_local_name))]
pub fn names_local(word: &[u8]) -> bool
    ensures { result ≡ is_local_name word.now }
{
    names_numbered(b'x', word)
}
