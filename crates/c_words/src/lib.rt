//! The words of C texts: what each is, found in one walk over its bytes.
#![tactic(auto)]

mod cursor;
mod fixed;
mod kind;
mod kinds;
mod manglings;
mod names;
mod numbers;
mod search;
mod symbols;
mod word;

pub use kind::WordKind;
pub use word::CWord;
