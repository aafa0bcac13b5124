//! Names with marks: tables of distinct ones, and the names that are bound around a place.
#![tactic(auto)]

mod counts;
mod key;
mod scope;
mod table;

pub use scope::Scope;
pub use table::MarkedNames;
