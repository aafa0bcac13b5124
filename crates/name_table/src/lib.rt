//! Tables of distinct names, each found by its bytes.
#![tactic(auto)]

mod table;

pub use table::NameTable;
