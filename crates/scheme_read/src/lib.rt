//! Reads the data of a source text.
#![tactic(auto)]

mod error;
mod join;
mod read;
mod reader;

pub use error::ReadErr;
pub use read::read_all;
