//! The tokens of a source text, each as long as possible, and their places.
#![tactic(auto)]

mod bytes;
mod comments;
mod hashes;
mod lex;
mod strings;
mod token;
mod words;

pub use lex::{Lexeme, lexeme_at};
pub use token::{Atom, Token, Word};
