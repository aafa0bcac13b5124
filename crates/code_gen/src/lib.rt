//! Generates the C unit of a module: a translation of it.
#![tactic(auto)]

mod bodies;
mod branches;
mod callees;
mod calls;
mod coercions;
mod context;
mod definitions;
mod emitter;
mod generate;
mod nodes;
mod parts;
mod wanted;

pub use generate::generate_unit;
