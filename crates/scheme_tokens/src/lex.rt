ghost use Rattle.std.specs.Prelude.{◌≡◌, IfOk};
ghost use Rattle.scheme_tokens.specs.Lexemes.{lexeme, mark_word};

use crate::bytes::space;
use crate::comments::line_len;
use crate::hashes::hash_at;
use crate::strings::string_at;
use crate::token::Word;
use crate::words::read_word;
use scheme_data::{OutOfMemory, is_symbol_byte, symbol_len};
use std::alloc::Global;

/// What stands at the front of bytes, with the number of its bytes after the first: white space or a comment, or a token.
#[derive(Debug, Drop)]
pub enum Lexeme {
    Gap(usize),
    Token(Word, usize),
}

/// What a byte is that begins nothing longer.
fn mark(b: u8) -> Word
    ensures { result ≡ mark_word b }
{
    match b {
        b'(' => Word::Open,
        b')' => Word::Close,
        b'\'' => Word::Quote,
        _ => Word::Bad,
    }
}

/// What stands at the front of a text.
pub fn lexeme_at(alloc: Global, tail: &[u8]) -> Result<Lexeme, OutOfMemory>
    ensures { IfOk result (λ l. l ≡ lexeme tail.now) }
{
    let [first, rest @ ..] = tail else {
        return Ok(Lexeme::Gap(0));
    };
    let first = *first;
    if space(first) {
        return Ok(Lexeme::Gap(0));
    }
    if is_symbol_byte(first) {
        let more = symbol_len(rest);
        return Ok(Lexeme::Token(read_word(alloc, &tail[..1 + more])?, more));
    }
    match first {
        b';' => Ok(Lexeme::Gap(line_len(rest))),
        b'"' => string_at(alloc, rest),
        b'#' => Ok(hash_at(rest)),
        _ => Ok(Lexeme::Token(mark(first), 0)),
    }
}
