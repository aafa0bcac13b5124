//! Links objects to one C text.
#![tactic(auto)]

mod choosing;
mod indexed;
mod joining;
mod linking;
mod modules;
mod reading;
mod refusals;

pub use linking::{LinkErr, link};
