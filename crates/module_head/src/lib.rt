//! Reads the head of a module, or finds its first breach.
#![tactic(auto)]

mod clauses;
mod entries;
mod error;
mod head;
mod items;
mod read;
mod reading;
mod shapes;

pub use error::HeadErr;
pub use head::{Entry, EntryKind, Extern, Head, Import, MainClause, Param};
pub use read::read_head;
