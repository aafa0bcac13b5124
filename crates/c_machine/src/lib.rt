//! The machine: runs checked C programs, with the output and the end that their meaning gives.
#![tactic(auto)]

mod calling;
mod decoding;
mod instructions;
mod lines;
mod machine;
mod names;
mod output;
mod performing;
mod program;
mod runnable;
mod stepping;
mod words;

pub use machine::{LoadErr, Machine};
