// What a word is, by its first byte.
ghost use Rattle.std.specs.Prelude.{◌≡◌, ◌∷◌, true};
ghost use Rattle.c_tree.specs.Names.{is_numeral};
ghost use Rattle.c_words.specs.Kinds.{by_number, if_named, fixed_kind, word_kind};
ghost use Rattle.c_words.specs.Letters.{begins_names};
ghost use Rattle.c_words.specs.Walks.{ended};
ghost use Rattle.c_words.specs.Words.{number_of, signed};

use crate::cursor::Cursor;
use crate::fixed::fixed_kind;
use crate::kind::WordKind;
use crate::names::prefixed_kind;
use crate::numbers::{fixnum, numeral};
use scheme_data::is_digit;

/// What the word of a cursor is.
pub fn walked_kind(cursor: &mut Cursor<'_>) -> WordKind
    ensures kind { result ≡ word_kind cursor.old.left }
    ensures end { cursor.new ≡ ended cursor.old }
{
    let Some(first) = cursor.next() else {
        return WordKind::Other;
    };
    if is_digit(first) {
        return number_kind(false, cursor);
    }
    cursor.advance();
    if begins_names(first) {
        return lettered_kind(first, cursor);
    }
    match first {
        b'x' => numbered_kind(WordKind::Local, cursor),
        b'L' => numbered_kind(WordKind::Label, cursor),
        b'E' => numbered_kind(WordKind::EndLabel, cursor),
        _ => fixed_kind(first, cursor),
    }
}

// Whether names of a kind begin with it and `_`.
fn begins_names(letter: u8) -> bool
    ensures { result ≡ begins_names letter }
{
    matches!(
        letter,
        b's' | b'c' | b'i' | b'v' | b'u' | b'p' | b'q' | b'e' | b'f'
    )
}

/// What a minus sign and the word of a cursor behind it are.
#[tactic(auto, using(crate::proofs::FirstBytes::minus_kind))]
pub fn signed_kind(cursor: &mut Cursor<'_>) -> WordKind
    ensures kind { result ≡ word_kind (45 ∷ cursor.old.left) }
    ensures end { cursor.new ≡ ended cursor.old }
{
    number_kind(true, cursor)
}

fn number_kind(negative: bool, cursor: &mut Cursor<'_>) -> WordKind
    ensures kind { result ≡ by_number (number_of (signed negative cursor.old.left)) }
    ensures end { cursor.new ≡ ended cursor.old }
{
    match fixnum(negative, cursor) {
        None => WordKind::Other,
        Some(n) => WordKind::Number(n),
    }
}

// Behind a letter: of a kind if a number is left.
fn numbered_kind(kind: WordKind, cursor: &mut Cursor<'_>) -> WordKind
    ensures kind { result ≡ if_named (is_numeral cursor.old.left) kind }
    ensures end { cursor.new ≡ ended cursor.old }
{
    if numeral(cursor) {
        kind
    } else {
        WordKind::Other
    }
}

// Behind a letter with which names of a kind begin.
fn lettered_kind(letter: u8, cursor: &mut Cursor<'_>) -> WordKind
    requires { begins_names letter ≡ true }
    ensures kind { result ≡ word_kind (letter ∷ cursor.old.left) }
    ensures end { cursor.new ≡ ended cursor.old }
{
    if cursor.next() == Some(b'_') {
        cursor.advance();
        return prefixed_kind(letter, cursor);
    }
    fixed_kind(letter, cursor)
}
