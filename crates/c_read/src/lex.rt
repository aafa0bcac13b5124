// What stands at the front of a text.
ghost use Rattle.std.specs.Prelude.{◌≡◌, ℕ, ◌+◌, ◌≤◌, ◌<◌, ◌∷◌, length, IfOk, IsTrue, Some, [], MatchOption};
ghost use Rattle.std.specs.List.{prefix_len};
ghost use Rattle.std.specs.Option.{IfSome, IfNone};
ghost use Rattle.c_read.specs.Sequences.{front};
ghost use Rattle.c_tree.specs.Lexical.{Word, Bad, Gap, Lexed, tokens, comment_len, comment_lexeme, is_space, is_word_byte, is_mark, is_octal, escape_at, octal_at, spelled_at, quoted_from, lexeme, signed_lexeme, string_lexeme};
ghost use Rattle.c_read.specs.Scans.{octal_byte, spelled_of, quoted_of, size_in, lexeme_of, lexeme_at, word_lexeme, more_of};
ghost use Rattle.c_read.specs.Tokens.{unquoted};

use crate::token::{CToken, Part};
use c_tree::{is_plain, tells_alphanumeric};
use c_words::CWord;
use scheme_data::{OutOfMemory, Text};
use std::alloc::Global;

/// A byte of a string, with the number of the bytes that spell it, less the first.
#[derive(Clone, Copy)]
pub struct StringByte {
    pub byte: u8,
    pub more: usize,
}

/// The bytes of a string, with the number of the bytes that spell them and its closing quote.
#[derive(Drop)]
pub struct Quote {
    pub bytes: Text,
    pub size: usize,
}

/// A text and its first byte, which was looked at.
#[derive(Clone, Copy)]
pub struct Start<'a> {
    pub byte: u8,
    pub text: &'a [u8],
}

/// What stands at a place, with the number of its bytes after the first.
#[derive(Drop)]
pub enum Scan<'a> {
    Gap(usize),
    Lexed(CToken<'a>, usize),
}

fn tells_space(b: u8) -> bool
    ensures { result ≡ is_space b }
{
    b == b' ' || b == b'\n'
}

fn tells_word(b: u8) -> bool
    ensures { result ≡ is_word_byte b }
{
    tells_alphanumeric(b) || b == b'_'
}

fn tells_mark(b: u8) -> bool
    ensures { result ≡ is_mark b }
{
    b == b'&'
        || b == b'('
        || b == b')'
        || b == b','
        || b == b':'
        || b == b';'
        || b == b'='
        || b == b'{'
        || b == b'}'
}

fn tells_octal(b: u8) -> bool
    ensures { result ≡ is_octal b }
{
    b >= b'0' && b <= b'7'
}

fn octal_of(a: u8, b: u8, c: u8) -> Option<u8>
    ensures { result ≡ octal_byte a b c }
{
    if !tells_octal(a) || !tells_octal(b) || !tells_octal(c) {
        return None;
    }
    let value = 64 * u16::from(a - b'0') + (8 * u16::from(b - b'0') + u16::from(c - b'0'));
    if value < 32 || (126 < value && value < 256) {
        return Some(value as u8);
    }
    None
}

fn octal_string_byte(a: u8, rest: &[u8]) -> Option<StringByte>
    ensures { spelled_of result ≡ octal_at a rest.now }
{
    if rest.len() < 2 {
        return None;
    }
    let byte = octal_of(a, rest[0], rest[1])?;
    Some(StringByte { byte, more: 3 })
}

// after a backslash
fn escaped_string_byte(rest: &[u8]) -> Option<StringByte>
    ensures { spelled_of result ≡ escape_at rest.now }
{
    if rest.is_empty() {
        return None;
    }
    if rest[0] == b'"' || rest[0] == b'\\' {
        return Some(StringByte {
            byte: rest[0],
            more: 1,
        });
    }
    octal_string_byte(rest[0], &rest[1..])
}

fn string_byte_at(b: u8, rest: &[u8]) -> Option<StringByte>
    ensures { spelled_of result ≡ spelled_at b rest.now }
{
    if is_plain(b) {
        return Some(StringByte { byte: b, more: 0 });
    }
    if b == b'\\' {
        return escaped_string_byte(rest);
    }
    None
}

fn quoted(alloc: Global, rest: &[u8]) -> Result<Option<Quote>, OutOfMemory>
    ensures { IfOk result (λ q. quoted_of q ≡ quoted_from 0 rest.now) }
{
    let mut bytes = Text::new(alloc);
    let mut skip: usize = 0;
    for i in 0..rest.len() {
        if skip > 0 {
            skip -= 1;
        } else {
            if rest[i] == b'"' {
                return Ok(Some(Quote { bytes, size: i + 1 }));
            }
            let Some(coded) = string_byte_at(rest[i], &rest[i + 1..]) else {
                return Ok(None);
            };
            bytes.push(coded.byte)?;
            skip = coded.more;
        }
    }
    Ok(None)
}

// How many bytes a string has behind its opening quote, the closing one included.
fn quoted_len(rest: &[u8]) -> Option<usize>
    ensures value { result ≡ size_in (quoted_from 0 rest.now) }
    ensures within { IfSome result (λ n. n ≤ length rest.now) }
{
    let mut skip: usize = 0;
    for i in 0..rest.len() {
        if skip > 0 {
            skip -= 1;
        } else {
            if rest[i] == b'"' {
                return Some(i + 1);
            }
            let Some(coded) = string_byte_at(rest[i], &rest[i + 1..]) else {
                return None;
            };
            skip = coded.more;
        }
    }
    None
}

/// The bytes of a string, from the text behind its opening quote.
pub fn unquote(alloc: Global, rest: &[u8]) -> Result<Text, OutOfMemory>
    ensures { IfOk result (λ text. text ≡ unquoted rest.now) }
{
    match quoted(alloc, rest)? {
        Some(Quote { bytes, .. }) => Ok(bytes),
        None => Ok(Text::new(alloc)),
    }
}

/// Where the first byte stands that is no blank: a third of a text is indentation.
pub fn behind_blanks<'a>(text: &'a [u8]) -> Option<Start<'a>>
    ensures none { IfNone result (tokens text.now ≡ []) }
    ensures front { IfSome result (λ s. front s.text.now ≡ Some s.byte) }
    ensures same { IfSome result (λ s. tokens s.text.now ≡ tokens text.now) }
    ensures within { IfSome result (λ s. length s.text.now ≤ length text.now) }
{
    for i in 0..text.len() {
        let byte = text[i];
        if !tells_space(byte) {
            return Some(Start {
                byte,
                text: &text[i..],
            });
        }
    }
    None
}

fn wrong<'a>() -> Scan<'a>
    ensures { lexeme_of result ≡ Lexed Bad 0 }
{
    Scan::Lexed(CToken::new(Part::Bad), 0)
}

// The word at the front.
fn word_at<'a>(byte: u8, text: &'a [u8]) -> Scan<'a>
    requires front { front text.now ≡ Some byte }
    requires word { IsTrue (is_word_byte byte) }
    ensures lexeme { lexeme_of result ≡ word_lexeme text.now }
    ensures within { more_of result < length text.now }
{
    let word = CWord::at_front(byte, text);
    let more = word.bytes().len() - 1;
    Scan::Lexed(CToken::new(Part::Word(word)), more)
}

// A sign belongs to the word right behind it.
fn signed_at<'a>(text: &'a [u8], rest: &[u8]) -> Scan<'a>
    requires { text.now ≡ 45 ∷ rest.now }
    ensures lexeme { lexeme_of result ≡ signed_lexeme rest.now }
    ensures within { more_of result < length text.now }
{
    let word = CWord::signed_at_front(text);
    let more = word.bytes().len() - 1;
    if more == 0 {
        return wrong();
    }
    Scan::Lexed(CToken::new(Part::Word(word)), more)
}

fn string_at<'a>(rest: &'a [u8]) -> Scan<'a>
    ensures lexeme { lexeme_of result ≡ string_lexeme (quoted_from 0 rest.now) }
    ensures within { more_of result ≤ length rest.now }
{
    match quoted_len(rest) {
        Some(size) => Scan::Lexed(CToken::new(Part::Str(rest)), size),
        None => wrong(),
    }
}

// The bytes of a comment after its `/*`.
fn comment_len(rest: &[u8]) -> Option<usize>
    ensures value { result ≡ comment_len rest.now }
    ensures within { IfSome result (λ n. n ≤ length rest.now) }
{
    let mut last = 0;
    for i in 0..rest.len() {
        if last == b'*' && rest[i] == b'/' {
            return Some(i + 1);
        }
        last = rest[i];
    }
    None
}

// The bytes of a comment after its `/`, if one stands there.
fn comment_more(rest: &[u8]) -> Option<usize>
    ensures lexeme { MatchOption result (comment_lexeme rest.now ≡ Lexed Bad 0) (λ more. comment_lexeme rest.now ≡ Gap more) }
    ensures within { IfSome result (λ n. n ≤ length rest.now) }
{
    if rest.is_empty() || rest[0] != b'*' {
        return None;
    }
    match comment_len(&rest[1..]) {
        Some(n) => Some(n + 1),
        None => None,
    }
}

fn comment_at<'a>(rest: &[u8]) -> Scan<'a>
    ensures lexeme { lexeme_of result ≡ comment_lexeme rest.now }
    ensures within { more_of result ≤ length rest.now }
{
    match comment_more(rest) {
        Some(more) => Scan::Gap(more),
        None => wrong(),
    }
}

// What stands at the front of a text that begins so.
#[tactic(auto, unfolding(c_tree::specs::Lexical::lexeme))]
fn scan_first<'a>(text: &'a [u8], first: u8, rest: &'a [u8]) -> Scan<'a>
    requires { text.now ≡ first ∷ rest.now }
    ensures lexeme { lexeme_of result ≡ lexeme first rest.now }
    ensures within { more_of result < length text.now }
{
    if tells_space(first) {
        return Scan::Gap(0);
    }
    if tells_word(first) {
        return word_at(first, text);
    }
    if first == b'-' {
        return signed_at(text, rest);
    }
    if tells_mark(first) {
        return Scan::Lexed(CToken::new(Part::Mark(first)), 0);
    }
    if first == b'"' {
        return string_at(rest);
    }
    if first == b'/' {
        return comment_at(rest);
    }
    wrong()
}

/// What stands at the front of a text, of which the first byte was looked at.
pub fn scan_start<'a>(start: Start<'a>) -> Scan<'a>
    requires { front start.text.now ≡ Some start.byte }
    ensures lexeme { lexeme_of result ≡ lexeme_at start.entry.text.now }
    ensures within { more_of result < length start.entry.text.now }
{
    scan_first(start.text, start.byte, &start.text[1..])
}

/// What stands at the front of a text that isn't empty.
pub fn scan_at<'a>(text: &'a [u8]) -> Scan<'a>
    requires { 0 < length text.now }
    ensures lexeme { lexeme_of result ≡ lexeme_at text.now }
    ensures within { more_of result < length text.now }
{
    scan_first(text, text[0], &text[1..])
}
