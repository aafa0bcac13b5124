//! The table of primitives and extern C functions: names, types of parameters, types of results.
#![tactic(auto)]

mod errors;
mod primitives;
mod rows;
mod search;
mod types;

pub use errors::ErrCode;
pub use primitives::Primitive;
pub use rows::{PrimRow, prim_row};
pub use search::{prim_by_name, primitives_by_name};
pub use types::{Ty, type_by_name};
