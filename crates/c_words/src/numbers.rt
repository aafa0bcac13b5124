// Numbers, read digit by digit.
ghost use Rattle.std.specs.Prelude.{◌≡◌, ◌≤◌, ◌^◌, false, true};
ghost use Rattle.std.specs.List.{list_all};
ghost use Rattle.std.specs.Option.{IfSome};
ghost use Rattle.scheme_data.specs.Decimal.{is_digit};
ghost use Rattle.c_tree.specs.Names.{is_numeral, begins_with};
ghost use Rattle.c_words.specs.Magnitudes.{with_digit, with_digits, magnitude_of, signed_fixnum};
ghost use Rattle.c_words.specs.Walks.{ended};
ghost use Rattle.c_words.specs.Words.{number_of, signed};

use crate::cursor::Cursor;
use scheme_data::is_digit;

// No fixnum is further from 0.
const LIMIT: u64 = 1 << 60;

/// Whether what is left of a word is a number without leading zeros.
pub fn numeral(cursor: &mut Cursor<'_>) -> bool
    ensures value { result ≡ is_numeral cursor.old.left }
    ensures end { cursor.new ≡ ended cursor.old }
{
    let Some(first) = cursor.next() else {
        return false;
    };
    cursor.advance();
    let Some(_) = cursor.next() else {
        return is_digit(first);
    };
    let others = digits(cursor);
    b'0' < first && first <= b'9' && others
}

// Whether what is left are digits alone.
fn digits(cursor: &mut Cursor<'_>) -> bool
    ensures value { result ≡ list_all is_digit cursor.old.left }
    ensures end { cursor.new ≡ ended cursor.old }
{
    while let Some(byte) = cursor.next() {
        if !is_digit(byte) {
            cursor.finish();
            return false;
        }
        cursor.advance();
    }
    true
}

/// The fixnum that what is left of a word spells, behind a minus sign or without one; none where it spells none.
pub fn fixnum(negative: bool, cursor: &mut Cursor<'_>) -> Option<i64>
    ensures value { result ≡ number_of (signed negative cursor.old.left) }
    ensures end { cursor.new ≡ ended cursor.old }
{
    match magnitude(cursor) {
        None => None,
        Some(magnitude) => signed_fixnum(negative, magnitude),
    }
}

// The fixnum so far from 0, on one side.
fn signed_fixnum(negative: bool, magnitude: u64) -> Option<i64>
    requires { magnitude ≤ 2 ^ 60 }
    ensures { result ≡ signed_fixnum negative magnitude }
{
    if !negative {
        return if magnitude < LIMIT {
            Some(magnitude as i64)
        } else {
            None
        };
    }
    if magnitude == 0 {
        return None;
    }
    Some(-(magnitude as i64))
}

// How far from 0 the fixnum is.
fn magnitude(cursor: &mut Cursor<'_>) -> Option<u64>
    ensures value { result ≡ magnitude_of cursor.old.left }
    ensures small { IfSome result (λ n. n ≤ 2 ^ 60) }
    ensures plain { begins_with 45 cursor.old.left ≡ false }
    ensures end { cursor.new ≡ ended cursor.old }
{
    match cursor.next() {
        None => None,
        Some(b'0') => zero_alone(cursor),
        Some(_) => value(cursor),
    }
}

// Where a 0 is next: no digit may stand behind it.
fn zero_alone(cursor: &mut Cursor<'_>) -> Option<u64>
    requires { begins_with 48 cursor.now.left ≡ true }
    ensures value { result ≡ magnitude_of cursor.old.left }
    ensures small { IfSome result (λ n. n ≤ 2 ^ 60) }
    ensures end { cursor.new ≡ ended cursor.old }
{
    cursor.advance();
    if cursor.next().is_none() {
        return Some(0);
    }
    cursor.finish();
    None
}

// The number that the digits left have; no leading zero is looked for.
fn value(cursor: &mut Cursor<'_>) -> Option<u64>
    ensures value { result ≡ with_digits 0 cursor.old.left }
    ensures small { IfSome result (λ n. n ≤ 2 ^ 60) }
    ensures end { cursor.new ≡ ended cursor.old }
{
    let mut value = 0;
    while let Some(byte) = cursor.next() {
        let Some(more) = with_digit(value, byte) else {
            cursor.finish();
            return None;
        };
        value = more;
        cursor.advance();
    }
    Some(value)
}

// A number with a digit more, while it is in reach of fixnums.
fn with_digit(value: u64, byte: u8) -> Option<u64>
    requires { value ≤ 2 ^ 60 }
    ensures { result ≡ with_digit value byte }
{
    if !is_digit(byte) {
        return None;
    }
    let more = 10 * value + (byte - b'0') as u64;
    if more <= LIMIT { Some(more) } else { None }
}
