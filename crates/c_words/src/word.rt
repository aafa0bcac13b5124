ghost use Rattle.std.specs.Prelude.{◌≡◌, ◌∷◌, Some, IsTrue, drop};
ghost use Rattle.std.specs.List.{take_while};
ghost use Rattle.c_tree.specs.Lexical.{is_word_byte};
ghost use Rattle.c_words.specs.Kinds.{word_kind};
ghost use Rattle.c_words.specs.Walks.{first};

use crate::cursor::Cursor;
use crate::kind::WordKind;
use crate::kinds::{signed_kind, walked_kind};
use std::marker::Model;

/// A word of a C text, with what it is. Nothing is copied from the text.
#[derive(Drop)]
pub struct CWord<'a> {
    bytes: &'a [u8],
    kind: WordKind,
}

impl<'a> Model for CWord<'a> {
    ghost use Rattle.std.specs.Prelude.{◌≡◌, List, ℕ};
    ghost use Rattle.std.specs.Coded.{coded_list, coded_ℕ};
    ghost use Rattle.c_words.specs.Kinds.{word_kind};

    ghost Value = { List ℕ };

    ghost coded = { coded_list coded_ℕ };

    ghost view = { λ w. w.bytes.now };

    ghost invariant = { λ w. w.kind ≡ word_kind w.bytes.now };
}

impl<'a> CWord<'a> {
    /// The word at the front of a text, which begins with this byte.
    pub fn at_front(byte: u8, text: &'a [u8]) -> CWord<'a>
        requires front { first text.now ≡ Some byte }
        requires word { IsTrue (is_word_byte byte) }
        ensures { result ≡ take_while is_word_byte text.now }
    {
        let mut cursor = Cursor::begun_with(byte, text);
        let kind = walked_kind(&mut cursor);
        CWord {
            bytes: &text[..cursor.len()],
            kind,
        }
    }

    /// The word of a minus sign at the front of a text and of the bytes behind it.
    pub fn signed_at_front(text: &'a [u8]) -> CWord<'a>
        requires { text.now ≡ 45 ∷ drop 1 text.now }
        ensures { result ≡ 45 ∷ take_while is_word_byte (drop 1 text.now) }
    {
        let mut cursor = Cursor::new(&text[1..]);
        let kind = signed_kind(&mut cursor);
        CWord {
            bytes: &text[..1 + cursor.len()],
            kind,
        }
    }

    /// Its bytes.
    pub fn bytes(&self) -> &'a [u8]
        ensures { result.now ≡ self.now }
    {
        self.bytes
    }

    /// What it is.
    pub fn kind(&self) -> WordKind
        ensures { result ≡ word_kind self.now }
    {
        self.kind
    }
}
