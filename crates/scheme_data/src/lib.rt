//! Byte texts, lists, places, data and fixnum words: what every other crate speaks of.
#![tactic(auto)]

mod datum;
mod fixnum;
mod list;
mod number;
mod place;
mod stack;
mod symbol;
mod text;
mod typing;

pub use datum::{Datum, LimitKind, Place};
pub use fixnum::{box_long, is_in_range, is_long, unbox_long};
pub use list::{CallList, List, TextList};
pub use number::{NumberText, push_decimal, push_number};
pub use place::place_after;
pub use stack::Stack;
pub use symbol::{has_symbol_form, is_digit, is_dot, is_symbol, is_symbol_byte, symbol_len};
pub use text::{OutOfMemory, Text};
pub use typing::{TypedName, has_type, typed_name};
