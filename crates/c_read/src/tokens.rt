// The tokens of a text, scanned one by one as they are taken.
ghost use Rattle.std.specs.Prelude.{◌≡◌, ◌∷◌, [], ◌↔◌, IsTrue, MatchBool, MatchOption, Some, None};
ghost use Rattle.std.specs.Option.{option_copied};
ghost use Rattle.c_tree.specs.Lexical.{Word, Mark, tokens};
ghost use Rattle.c_read.specs.Sequences.{after_mark, word_first, first_word, is_that_mark, is_mark_first};

use crate::lex::{Scan, behind_blanks, scan_start};
use crate::token::{CToken, Part};
use c_words::CWord;
use std::marker::Model;

/// The tokens of a text that aren't taken yet: the first of them, which was scanned once, and the text behind it. No list of them is kept.
#[derive(Drop)]
pub struct Tokens<'a> {
    next: Option<CToken<'a>>,
    rest: &'a [u8],
}

impl<'a> Model for Tokens<'a> {
    ghost use Rattle.std.specs.Prelude.{List};
    ghost use Rattle.std.specs.Coded.{coded_list};
    ghost use Rattle.c_tree.specs.Lexical.{Token};
    ghost use Rattle.c_read.specs.Tokens.{ahead, coded_token};

    ghost Value = { List Token };

    ghost coded = { coded_list coded_token };

    ghost view = { λ t. ahead t.next t.rest.now };
}

impl<'a> Tokens<'a> {
    /// The tokens of a text.
    pub fn new(text: &'a [u8]) -> Tokens<'a>
        ensures { result ≡ tokens text.now }
    {
        let mut rest = text;
        'gaps: while let Some(start) = behind_blanks(rest) {
            match scan_start(start) {
                Scan::Gap(more) => rest = &start.text[1 + more..],
                Scan::Lexed(token, more) => {
                    return Tokens {
                        next: Some(token),
                        rest: &start.text[1 + more..],
                    };
                }
            }
        }
        Tokens { next: None, rest }
    }

    /// Whether none is left.
    pub fn is_empty(&self) -> bool
        ensures { IsTrue result ↔ (self.now ≡ []) }
    {
        self.next.is_none()
    }

    /// The word that is next, if one is.
    pub fn next_word(&self) -> Option<&CWord<'a>>
        ensures { option_copied result ≡ first_word self.now }
    {
        match &self.next {
            Some(token) => token.word(),
            None => None,
        }
    }

    fn is_mark_next(&self, mark: u8) -> bool
        ensures { result ≡ is_mark_first mark self.now }
    {
        match &self.next {
            Some(token) => token.is_mark(mark),
            None => false,
        }
    }

    /// Takes this mark, if it is next.
    pub fn take_mark(&mut self, mark: u8) -> bool
        ensures { MatchBool result ((after_mark mark self.old ≡ Some self.new) × (self.old ≡ Mark mark ∷ self.new)) ((after_mark mark self.old ≡ None) × (self.new ≡ self.old)) }
    {
        if !self.is_mark_next(mark) {
            return false;
        }
        *self = Tokens::new(self.rest);
        true
    }

    /// Takes the word that is next, if one is.
    pub fn take_word(&mut self) -> Option<CWord<'a>>
        ensures { MatchOption result ((word_first self.old ≡ None) × (self.new ≡ self.old)) (λ word. self.old ≡ Word word ∷ self.new) }
    {
        let Some(token) = self.next.take() else {
            return None;
        };
        match token.into_part() {
            Part::Word(word) => {
                *self = Tokens::new(self.rest);
                Some(word)
            }
            other => {
                self.next = Some(CToken::new(other));
                None
            }
        }
    }

    /// Takes the next token.
    pub fn pop(&mut self) -> Option<CToken<'a>>
        ensures { MatchOption result ((self.old ≡ []) × (self.new ≡ [])) (λ top. self.old ≡ top ∷ self.new) }
    {
        let Some(token) = self.next.take() else {
            return None;
        };
        *self = Tokens::new(self.rest);
        Some(token)
    }
}
