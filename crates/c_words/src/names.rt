// Names that a program chooses.
ghost use Rattle.std.specs.Prelude.{◌≡◌};
ghost use Rattle.c_tree.specs.Names.{is_mangled_symbol, is_numeral, is_symbol_or_number, is_of_module};
ghost use Rattle.c_words.specs.Walks.{ended};
ghost use Rattle.c_words.specs.Kinds.{if_named, prefixed_kind};
ghost use Rattle.c_words.specs.Manglings.{IsBehindModule};

use crate::cursor::Cursor;
use crate::kind::WordKind;
use crate::manglings::{Ending, mangled_symbol};
use crate::numbers::numeral;
use scheme_data::is_digit;

// Whether what is left is the mangling of a symbol.
fn symbol(cursor: &mut Cursor<'_>) -> bool
    ensures value { result ≡ is_mangled_symbol cursor.old.left }
    ensures end { cursor.new ≡ ended cursor.old }
{
    match mangled_symbol(cursor) {
        Ending::AtEnd => true,
        Ending::AtCut => {
            cursor.finish();
            false
        }
        Ending::Wrong => false,
    }
}

// The same, or a number without leading zeros. No symbol begins with a digit.
fn symbol_or_number(cursor: &mut Cursor<'_>) -> bool
    ensures value { result ≡ is_symbol_or_number cursor.old.left }
    ensures end { cursor.new ≡ ended cursor.old }
{
    match cursor.next() {
        Some(first) if is_digit(first) => numeral(cursor),
        Some(_) | None => symbol(cursor),
    }
}

// Goes over a mangled module and `__`, or else over all that is left.
fn goes_over_module(cursor: &mut Cursor<'_>) -> bool
    ensures { IsBehindModule result cursor.old cursor.new }
{
    match mangled_symbol(cursor) {
        Ending::AtCut => true,
        Ending::AtEnd | Ending::Wrong => false,
    }
}

// Whether what is left is a mangled module, `__` and a mangled symbol.
fn symbol_of_module(cursor: &mut Cursor<'_>) -> bool
    ensures value { result ≡ is_of_module is_mangled_symbol cursor.old.left }
    ensures end { cursor.new ≡ ended cursor.old }
{
    if goes_over_module(cursor) {
        return symbol(cursor);
    }
    false
}

fn number_of_module(cursor: &mut Cursor<'_>) -> bool
    ensures value { result ≡ is_of_module is_numeral cursor.old.left }
    ensures end { cursor.new ≡ ended cursor.old }
{
    if goes_over_module(cursor) {
        return numeral(cursor);
    }
    false
}

fn symbol_or_number_of_module(cursor: &mut Cursor<'_>) -> bool
    ensures value { result ≡ is_of_module is_symbol_or_number cursor.old.left }
    ensures end { cursor.new ≡ ended cursor.old }
{
    if goes_over_module(cursor) {
        return symbol_or_number(cursor);
    }
    false
}

fn if_named(named: bool, kind: WordKind) -> WordKind
    ensures { result ≡ if_named named kind }
{
    if named {
        return kind;
    }
    WordKind::Other
}

/// What a word is that begins with the letter of a kind of names and `_`, from behind these.
pub fn prefixed_kind(letter: u8, cursor: &mut Cursor<'_>) -> WordKind
    ensures kind { result ≡ prefixed_kind letter cursor.old.left }
    ensures end { cursor.new ≡ ended cursor.old }
{
    match letter {
        b's' => if_named(symbol(cursor), WordKind::Symbol),
        b'c' | b'i' => if_named(symbol(cursor), WordKind::Function),
        b'v' | b'u' | b'p' => if_named(symbol_of_module(cursor), WordKind::Global),
        b'q' => if_named(number_of_module(cursor), WordKind::Global),
        b'e' => if_named(symbol_or_number_of_module(cursor), WordKind::Entry),
        b'f' => if_named(symbol_or_number_of_module(cursor), WordKind::Function),
        _ => {
            cursor.finish();
            WordKind::Other
        }
    }
}
