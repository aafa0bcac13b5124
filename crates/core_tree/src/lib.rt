//! The tree of a module: what the definitions give a meaning to and the generator translates.
#![tactic(auto)]

mod tree;

pub use tree::{Const, GlobalRef, ImportItem, Lambda, Module, Node, Top, Use, VarId};
