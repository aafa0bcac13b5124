//! Checks C programs: accepts exactly those that break no rule.
#![tactic(auto)]

mod asked;
mod blocks;
mod causes;
mod checking;
mod code;
mod declared;
mod ends;
mod heads;
mod items;
mod known;
mod named;
mod places;
mod role;
mod room;
mod scope;
mod statements;
mod steps;
mod types;
mod used;
mod variables;

pub use checking::{CheckErr, Checked, check};
pub use places::Places;
