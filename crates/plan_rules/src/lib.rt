//! The rules by which a unit of C is a translation of a module.
#![tactic(auto)]

mod rep;

pub use rep::Rep;
