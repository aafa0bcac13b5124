//! The forms of the core grammar, what expansion means (in `specs`), and the core forms of a body's and an expression's words.
#![tactic(auto)]

mod assembling;
mod binders;
mod build;
mod core_form;
mod core_rows;
mod counting;
mod error;
mod measure;
mod words;
mod work;

pub use assembling::assemble;
pub use binders::{Bindings, Types, binder_of, binders_of, bindings_of};
pub use build::{
    CORE_MARK, FIRST_NEW, core, items_of, listed, new_name, put_in_front, says, stacked, sure, two,
};
pub use core_form::{Binder, Core, CoreExpr, CoreTop};
pub use core_rows::{core_turn, one_part, raws_node};
pub use counting::{Counts, DEEPEST, MOST_EXPANSIONS, MOST_FILLED};
pub use error::ExpandErr;
pub use measure::{left_after, nests_within};
pub use words::{Keyword, keyword_of};
pub use work::{Bound, Function, Kind, Lists, Made, Node, Open, Part, Turned, Work};
