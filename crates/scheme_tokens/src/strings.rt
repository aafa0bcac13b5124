ghost use Rattle.std.specs.Prelude.{◌≡◌, ◌++◌, ◌<◌, length, false, IfOk, OnOk, MatchOption};
ghost use Rattle.scheme_tokens.specs.Strings.{is_escape, is_wrong, is_closing_quote, escaped_byte, part, is_escaping, spelled_len, unescaped, string_lexeme};

use crate::lex::Lexeme;
use crate::token::{Atom, Word};
use scheme_data::{OutOfMemory, Text};
use std::alloc::Global;

fn escape(b: u8) -> bool
    ensures { result ≡ is_escape b }
{
    b == b'\\' || b == b'"' || b == b'n' || b == b't'
}

fn escaped_as(b: u8) -> u8
    ensures { result ≡ escaped_byte b }
{
    match b {
        b'n' => b'\n',
        b't' => b'\t',
        _ => b,
    }
}

fn escaping(escaped: bool, b: u8) -> bool
    ensures { result ≡ is_escaping escaped b }
{
    !escaped && b == b'\\'
}

fn wrong(escaped: bool, b: u8) -> bool
    ensures { result ≡ is_wrong escaped b }
{
    escaped && !escape(b)
}

fn closing_quote(escaped: bool, b: u8) -> bool
    ensures { result ≡ is_closing_quote escaped b }
{
    !escaped && b == b'"'
}

/// How many bytes stand before the closing quote; none where it is missing, or at an escape that is none.
fn text_len(rest: &[u8]) -> Option<usize>
    ensures value { result ≡ spelled_len false rest.now }
    ensures within { MatchOption result (Unit {0}) (λ n. n < length rest.now) }
{
    let mut escaped = false;
    for (i, b) in rest.iter().enumerate() {
        let b = *b;
        if wrong(escaped, b) {
            return None;
        }
        if closing_quote(escaped, b) {
            return Some(i);
        }
        escaped = escaping(escaped, b);
    }
    None
}

fn push_part(text: &mut Text, escaped: bool, b: u8) -> Result<(), OutOfMemory>
    ensures { OnOk result (text.new ≡ text.old ++ part escaped b) }
{
    if escaped {
        return text.push(escaped_as(b));
    }
    if b == b'\\' {
        return Ok(());
    }
    text.push(b)
}

/// The bytes that are spelled so between quotes.
fn text_of(alloc: Global, spelling: &[u8]) -> Result<Text, OutOfMemory>
    ensures { IfOk result (λ text. text ≡ unescaped false spelling.now) }
{
    let mut text = Text::new(alloc);
    let mut escaped = false;
    for b in spelling {
        push_part(&mut text, escaped, *b)?;
        escaped = escaping(escaped, *b);
    }
    Ok(text)
}

/// A string, by what follows its opening quote.
pub fn string_at(alloc: Global, rest: &[u8]) -> Result<Lexeme, OutOfMemory>
    ensures { IfOk result (λ l. l ≡ string_lexeme rest.now) }
{
    let Some(n) = text_len(rest) else {
        return Ok(Lexeme::Token(Word::Bad, 0));
    };
    let text = text_of(alloc, &rest[..n])?;
    Ok(Lexeme::Token(Word::Atom(Atom::Str(text)), n + 1))
}
