//! The expander: from the forms of a module to the forms of the core grammar.
#![tactic(auto)]

mod expander;
mod grouping;
mod module;
mod scanning;
mod walking;

pub use core_forms::{Binder, Core, CoreExpr, CoreTop, ExpandErr};
pub use module::expand_module;
