//! The part of the table of primitives that programs are built from so far.
#![tactic(auto)]

mod primitives;

pub use primitives::{Primitive, Ty, prim_by_name};
