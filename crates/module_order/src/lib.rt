//! The order in which the modules of a program are initialised.
#![tactic(auto)]

mod order;
mod walk;

pub use order::initialization_order;
