//! Commands: which words, and which lines of a script, ask for what.
#![tactic(auto)]

mod command;
mod number;
mod parse;
mod words;

pub use command::{Command, Request};
pub use parse::{parse_line, request_in};
pub use words::{copy_all, parts};
