//! The meaning of the C subset: definitions of words, runs, rules and checked programs, written without the compiler.
#![tactic(auto)]

mod breach;

pub use breach::{BadCause, Breach};
