//! The steps of expansion: what stands in the place of one form, and what stands first in a body.
#![tactic(auto)]

mod heads;
mod looking;
mod macros;
mod turning;
mod uses;

pub use heads::{Head, head_of};
pub use looking::{Definition, First, Looked, Settled, definition_of, look, settle};
pub use macros::Macros;
pub use turning::{Special, behind_head, push_raw, turn};
pub use uses::{expand_use, refusal};
