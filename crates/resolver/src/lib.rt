//! Makes the interface of a module from its data, and with the interfaces of others the tree of the module.
#![tactic(auto)]

mod agreement;
mod built_head;
mod clauses;
mod definitions;
mod drafts;
mod functions;
mod imports;
mod interfaces;
mod items;
mod names;
mod outside;
mod resolve;
mod scope;
mod shapes;
mod tops;
mod uses;

pub use resolve::{exported_interface, resolve_module};
