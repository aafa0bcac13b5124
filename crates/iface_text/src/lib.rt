//! Interface texts, both ways: a module's name and a row for each function that it exports.
#![tactic(auto)]

mod interface;
mod lines;
mod reader;
mod writer;

pub use interface::{Iface, IfaceErr, Row, RowKind, read_iface, write_iface};
pub use lines::{Cut, cut_at, read_row};
pub use writer::write_row;
