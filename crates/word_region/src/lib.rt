//! Blocks of words, taken in order and given back from the end, in segments that growth never copies.
#![tactic(auto)]

mod blocks;
mod segments;
mod table;

pub use blocks::{Addr, Mark, Region};
pub use segments::Segment;

#[cfg(test)]
mod tests;
