//! Compiles one module by itself: from its source to the text of its interface, and with the interfaces of what it imports to the text of its object.
#![tactic(auto)]

mod compile;
mod error;
mod export;
mod forms;

pub use compile::compile_unit;
pub use error::UnitErr;
pub use export::make_iface;
