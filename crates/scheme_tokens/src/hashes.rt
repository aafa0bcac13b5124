// What begins with `#`.
ghost use Rattle.std.specs.Prelude.{◌≡◌};
ghost use Rattle.scheme_tokens.specs.Hashes.{constant_word, named_byte, character_word, character_lexeme, block_lexeme, hash_lexeme};

use crate::comments::block_len;
use crate::lex::Lexeme;
use crate::token::{Atom, Word};
use scheme_data::symbol_len;

/// The constant that these bytes are after `#`.
fn constant(name: &[u8]) -> Word
    ensures { result ≡ constant_word name.now }
{
    if name == b"t".as_slice() {
        return Word::Atom(Atom::Bool(true));
    }
    if name == b"f".as_slice() {
        return Word::Atom(Atom::Bool(false));
    }
    if name == b"unspecified".as_slice() {
        return Word::Atom(Atom::Unspec);
    }
    Word::Bad
}

fn byte_named(name: &[u8]) -> Option<u8>
    ensures { result ≡ named_byte name.now }
{
    if name == b"space".as_slice() {
        return Some(b' ');
    }
    if name == b"newline".as_slice() {
        return Some(b'\n');
    }
    if name == b"tab".as_slice() {
        return Some(b'\t');
    }
    if name == b"return".as_slice() {
        return Some(b'\r');
    }
    if name == b"null".as_slice() {
        return Some(0);
    }
    None
}

fn character(name: &[u8]) -> Word
    ensures { result ≡ character_word name.now }
{
    if name.len() == 1 {
        return Word::Atom(Atom::Chr(name[0]));
    }
    match byte_named(name) {
        Some(b) => Word::Atom(Atom::Chr(b)),
        None => Word::Bad,
    }
}

/// A character, by what follows its `#\`.
fn character_at(rest: &[u8]) -> Lexeme
    ensures { result ≡ character_lexeme rest.now }
{
    let [_, more @ ..] = rest else {
        return Lexeme::Token(Word::Bad, 0);
    };
    let n = symbol_len(more);
    Lexeme::Token(character(&rest[..1 + n]), 2 + n)
}

/// A block comment, by what follows its `#|`.
fn block_at(rest: &[u8]) -> Lexeme
    ensures { result ≡ block_lexeme rest.now }
{
    match block_len(rest) {
        Some(n) => Lexeme::Gap(1 + n),
        None => Lexeme::Token(Word::Bad, 0),
    }
}

/// What begins with `#`, by what follows it.
pub fn hash_at(rest: &[u8]) -> Lexeme
    ensures { result ≡ hash_lexeme rest.now }
{
    let [first, more @ ..] = rest else {
        return Lexeme::Token(Word::Bad, 0);
    };
    match *first {
        b'(' => Lexeme::Token(Word::OpenVector, 1),
        b'|' => block_at(more),
        b'\\' => character_at(more),
        _ => {
            let n = symbol_len(rest);
            Lexeme::Token(constant(&rest[..n]), n)
        }
    }
}
