//! Reads C texts: gives the one tree, exactly where there is one.
#![tactic(auto)]

mod bodies;
mod calls;
mod dues;
mod fault;
mod items;
mod kinds;
mod lex;
mod read;
mod skips;
mod stop;
mod token;
mod tokens;
mod words;

pub use read::{CReadErr, read_c, read_unit};
