//! Writes C texts: each has the tree that was given.
#![tactic(auto)]

mod item;
mod piece;
mod put;
mod quote;
mod statement;
mod write;

pub use write::{write_c, write_unit};
