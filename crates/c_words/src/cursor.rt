// The bytes of a word, each looked at once.
ghost use Rattle.std.specs.Prelude.{◌≡◌, ◌∷◌, [], drop, length, Some, MatchOption, IsTrue};
ghost use Rattle.std.specs.List.{take_while};
ghost use Rattle.std.specs.Option.{IfSome};
ghost use Rattle.c_tree.specs.Lexical.{is_word_byte};
ghost use Rattle.c_words.specs.Walks.{first, begun, stepped, ended};

use c_tree::tells_alphanumeric;
use std::marker::Model;

/// A walk over the bytes of the word at the front of a text.
#[derive(Drop)]
pub struct Cursor<'a> {
    text: &'a [u8],
    place: usize,
    next: Option<u8>,
}

impl<'a> Model for Cursor<'a> {
    ghost use Rattle.c_words.specs.Walks.{Walk, coded_walk, walk_of, IsAt};

    ghost Value = { Walk };

    ghost coded = { coded_walk };

    ghost view = { λ c. walk_of c.text.now c.place };

    ghost invariant = { λ c. IsAt c.text.now c.place c.next };
}

fn tells_word(byte: u8) -> bool
    ensures { result ≡ is_word_byte byte }
{
    tells_alphanumeric(byte) || byte == b'_'
}

impl<'a> Cursor<'a> {
    /// Before the first byte of the word, which the caller has looked at.
    pub fn begun_with(byte: u8, text: &'a [u8]) -> Cursor<'a>
        requires front { first text.now ≡ Some byte }
        requires word { IsTrue (is_word_byte byte) }
        ensures { result ≡ begun (take_while is_word_byte text.now) }
    {
        Cursor {
            text,
            place: 0,
            next: Some(byte),
        }
    }

    /// Before the first byte of the word, if one is there.
    pub fn new(text: &'a [u8]) -> Cursor<'a>
        ensures { result ≡ begun (take_while is_word_byte text.now) }
    {
        Cursor {
            text,
            place: 0,
            next: byte_at(text, 0),
        }
    }

    /// The byte that is next; none at the end of the word.
    pub fn next(&self) -> Option<u8>
        ensures left { MatchOption result (self.now.left ≡ []) (λ b. self.now.left ≡ b ∷ drop 1 self.now.left) }
        ensures word { IfSome result (λ b. IsTrue (is_word_byte b)) }
    {
        self.next
    }

    /// Goes over the byte that is next.
    pub fn advance(&mut self)
        ensures { self.new ≡ stepped self.old }
    {
        if self.next.is_none() {
            return;
        }
        self.place += 1;
        self.next = byte_at(self.text, self.place);
    }

    /// Goes over all bytes that are left.
    pub fn finish(&mut self)
        ensures { self.new ≡ ended self.old }
    {
        while self.next.is_some() {
            self.advance();
        }
    }

    /// How many bytes it went over.
    pub fn len(&self) -> usize
        requires { self.now.left ≡ [] }
        ensures { result ≡ length self.now.whole }
    {
        self.place
    }
}

// The byte at a place, if it belongs to a word.
fn byte_at(text: &[u8], place: usize) -> Option<u8>
    ensures { result ≡ first (take_while is_word_byte (drop place text.now)) }
{
    if place < text.len() && tells_word(text[place]) {
        return Some(text[place]);
    }
    None
}
