//! Object texts, both ways: a module's name, its imports, uses and exports, its main function and its C unit.
#![tactic(auto)]

mod header;
mod lines;
mod names;
mod object;
mod parts;

pub use object::{Object, ObjectErr, read_object, write_object};
