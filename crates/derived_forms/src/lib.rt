//! The derived forms, each a row of one table (R5RS sections 4.2 and 7.3).
#![tactic(auto)]

mod derived;
mod loops;

pub use derived::{Derived, let_star, row_of};
