// Mangled names in a word.
ghost use Rattle.std.specs.Prelude.{◌≡◌, ◌∷◌, ◌<◌, [], None, IsTrue, MatchOption};
ghost use Rattle.c_tree.specs.Names.{is_hex, hex_value, mangled_byte, coded_at};
ghost use Rattle.c_words.specs.Manglings.{barred, IsNext, EndsSo};

use crate::cursor::Cursor;
use crate::symbols::SymbolBytes;
use c_tree::tells_alphanumeric;
use scheme_data::is_digit;

/// What stands next in a mangled name: a byte of the name, its end, or `__`, where it is cut.
#[derive(Clone, Copy)]
pub enum Spelled {
    Byte(u8),
    End,
    Cut,
    Wrong,
}

/// How the walk over the mangling of a symbol ends: with the word, behind `__`, or without a symbol.
#[derive(Clone, Copy)]
pub enum Ending {
    AtEnd,
    AtCut,
    Wrong,
}

fn tells_hex(byte: u8) -> bool
    ensures { result ≡ is_hex byte }
{
    is_digit(byte) || b'a' <= byte && byte <= b'f'
}

// The value of a hexadecimal digit.
fn hex_value(digit: u8) -> u8
    requires { IsTrue (is_hex digit) }
    ensures value { result ≡ hex_value digit }
    ensures small { result < 16 }
{
    if is_digit(digit) {
        digit - b'0'
    } else {
        digit - 87
    }
}

// The byte that two digits behind `_` spell.
fn coded_byte(high: u8, low: u8) -> Option<u8>
    ensures { MatchOption result (coded_at (high ∷ low ∷ []) ≡ None) (λ byte. mangled_byte byte ≡ 95 ∷ high ∷ low ∷ []) }
{
    if !tells_hex(high) || !tells_hex(low) {
        return None;
    }
    let byte = 16 * hex_value(high) + hex_value(low);
    if tells_alphanumeric(byte) {
        return None;
    }
    Some(byte)
}

// What stands next, from behind a `_`.
fn spelled_behind_bar(cursor: &mut Cursor<'_>) -> Spelled
    ensures { IsNext result (barred cursor.old) cursor.new }
{
    let Some(high) = cursor.next() else {
        return Spelled::Wrong;
    };
    cursor.advance();
    if high == b'_' {
        return Spelled::Cut;
    }
    let Some(low) = cursor.next() else {
        return Spelled::Wrong;
    };
    let Some(byte) = coded_byte(high, low) else {
        return Spelled::Wrong;
    };
    cursor.advance();
    Spelled::Byte(byte)
}

/// Goes over what stands next in a mangled name.
pub fn next_spelled(cursor: &mut Cursor<'_>) -> Spelled
    ensures { IsNext result cursor.old cursor.new }
{
    let Some(first) = cursor.next() else {
        return Spelled::End;
    };
    cursor.advance();
    if tells_alphanumeric(first) {
        return Spelled::Byte(first);
    }
    if first == b'_' {
        return spelled_behind_bar(cursor);
    }
    Spelled::Wrong
}

/// Goes over the mangling of a symbol, to the end of the word or over the first `__`.
pub fn mangled_symbol(cursor: &mut Cursor<'_>) -> Ending
    ensures { EndsSo result cursor.old cursor.new }
{
    let mut symbol = SymbolBytes::new();
    loop {
        match next_spelled(cursor) {
            Spelled::Byte(byte) => symbol.step(byte),
            Spelled::End if symbol.is_symbol() => return Ending::AtEnd,
            Spelled::End => return Ending::Wrong,
            Spelled::Cut if symbol.is_symbol() => return Ending::AtCut,
            Spelled::Cut => {
                cursor.finish();
                return Ending::Wrong;
            }
            Spelled::Wrong => {
                cursor.finish();
                return Ending::Wrong;
            }
        }
    }
}
