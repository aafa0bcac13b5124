// A run of symbol bytes is a number, a symbol, a dot, or none of these.
ghost use Rattle.std.specs.Prelude.{◌≡◌, ◌≤◌, pos, IfOk};
ghost use Rattle.scheme_tokens.specs.Words.{negative, number_in, fixnum_or_bad, number_word, word_of};
ghost use Rattle.scheme_tokens.specs.Digits.{capped_digits};

use crate::token::{Atom, Word};
use scheme_data::{OutOfMemory, Text, has_symbol_form, is_digit, is_dot};
use std::alloc::Global;

/// The least number that is no fixnum, with either sign.
const BEYOND: u64 = (1 << 60) + 1;

/// The number that digits spell, or `BEYOND` where it is that or more; none where they are not one or more digits.
fn digits(text: &[u8]) -> Option<u64>
    ensures { result ≡ capped_digits text.now }
{
    if text.is_empty() {
        return None;
    }
    let mut n: u64 = 0;
    for b in text {
        if !is_digit(*b) {
            return None;
        }
        n = (10 * n + u64::from(*b - b'0')).min(BEYOND);
    }
    Some(n)
}

fn positive(n: u64) -> Word
    requires { n ≤ 1152921504606846977 }
    ensures { result ≡ fixnum_or_bad (pos n) }
{
    if n < 1 << 60 {
        Word::Atom(Atom::Int(n as i64))
    } else {
        Word::Bad
    }
}

fn negated(n: u64) -> Word
    requires { n ≤ 1152921504606846977 }
    ensures { result ≡ fixnum_or_bad (negative n) }
{
    if n <= 1 << 60 {
        Word::Atom(Atom::Int(0 - n as i64))
    } else {
        Word::Bad
    }
}

/// The word of a number; none where the text is no number.
fn number(text: &[u8]) -> Option<Word>
    ensures { result ≡ number_word (number_in text.now) }
{
    let [first, rest @ ..] = text else {
        return None;
    };
    if let Some(n) = digits(text) {
        return Some(positive(n));
    }
    match *first {
        b'+' => Some(positive(digits(rest)?)),
        b'-' => Some(negated(digits(rest)?)),
        _ => None,
    }
}

/// What a run of symbol bytes is.
pub fn read_word(alloc: Global, text: &[u8]) -> Result<Word, OutOfMemory>
    ensures { IfOk result (λ w. w ≡ word_of text.now) }
{
    if let Some(word) = number(text) {
        return Ok(word);
    }
    if is_dot(text) {
        return Ok(Word::Dot);
    }
    if has_symbol_form(text) {
        return Ok(Word::Atom(Atom::Sym(Text::from_bytes(alloc, text)?)));
    }
    Ok(Word::Bad)
}
