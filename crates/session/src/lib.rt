//! The top call: it does a command, or the lines of a script.
#![tactic(auto)]

mod acts;
mod answer;
mod errors;
mod line;
mod outside;
mod report;
mod running;
mod script;

pub use answer::{Answer, Refusal};
pub use commands::{Command, parse_line};
pub use report::{message, status};
pub use script::bglc;
