ghost use Rattle.std.specs.Prelude.{◌≡◌, IsTrue};
ghost use Rattle.std.specs.Option.{option_copied, IfSome};
ghost use Rattle.c_tree.specs.Lexical.{Word, Mark, Str};
ghost use Rattle.c_read.specs.Sequences.{is_that_mark, word_of};
ghost use Rattle.c_read.specs.Tokens.{token_of};
ghost use Rattle.c_read.specs.Kinds.{token_kind};

use crate::kinds::{Kind, part_kind};
use c_words::CWord;
use std::marker::Model;

/// What a token is made of: a word with what it is, a mark of one byte, a string as the text behind its opening quote, or what begins no token. Nothing is copied from the text.
#[derive(Drop)]
pub enum Part<'a> {
    Word(CWord<'a>),
    Mark(u8),
    Str(&'a [u8]),
    Bad,
}

/// A token of a text.
#[derive(Drop)]
pub struct CToken<'a> {
    part: Part<'a>,
}

impl<'a> Model for CToken<'a> {
    ghost use Rattle.c_tree.specs.Lexical.{Token};
    ghost use Rattle.c_read.specs.Tokens.{token_of, coded_token};

    ghost Value = { Token };

    ghost coded = { coded_token };

    ghost view = { λ t. token_of t.part };
}

impl<'a> CToken<'a> {
    /// A token that is made of this.
    pub fn new(part: Part<'a>) -> CToken<'a>
        ensures { result ≡ token_of part.entry }
    {
        CToken { part }
    }

    /// What it is made of.
    pub fn into_part(self) -> Part<'a>
        ensures { token_of result ≡ self.entry }
    {
        self.part
    }

    /// The word that it is, if it is one.
    pub fn word(&self) -> Option<&CWord<'a>>
        ensures { option_copied result ≡ word_of self.now }
    {
        match &self.part {
            Part::Word(word) => Some(word),
            Part::Mark(_) => None,
            Part::Str(_) => None,
            Part::Bad => None,
        }
    }

    /// Whether it is this mark.
    pub fn is_mark(&self, mark: u8) -> bool
        ensures { result ≡ is_that_mark mark self.now }
    {
        match self.part {
            Part::Mark(own) => own == mark,
            Part::Word(_) => false,
            Part::Str(_) => false,
            Part::Bad => false,
        }
    }

    /// Its kind.
    pub fn kind(&self) -> Kind
        ensures { result ≡ token_kind self.now }
    {
        part_kind(&self.part)
    }
}
