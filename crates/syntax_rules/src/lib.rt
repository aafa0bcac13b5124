//! Macros by rules: `syntax-rules` of R5RS, section 4.3.
#![tactic(auto)]

mod constant;
mod error;
mod expand;
mod filling;
mod matching;
mod names;
mod patterns;
mod reading;
mod rules;
mod templates;
mod tree;
mod usage;
mod words;

pub use error::RulesErr;
pub use rules::Rules;
