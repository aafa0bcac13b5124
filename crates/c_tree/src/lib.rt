//! The trees of the C subset.
#![tactic(auto)]

mod building;
mod closing;
mod function;
mod laying;
mod name_tests;
mod name_texts;
mod op;
mod order;
mod pieces;
mod plain;
mod tree;
mod walk;

pub use function::{CFun, CItem, CProgram, CUnit};
pub use laying::Layout;
pub use name_tests::{
    begins_as_entry, begins_as_initializer, begins_as_maker, names_local, names_main,
    tells_alphanumeric,
};
pub use name_texts::{
    function_name_text, initializer_name_text, label_name_text, local_name_text, maker_name_text,
};
pub use op::{Op, Wants};
pub use order::{lay_out, pieces_in};
pub use pieces::{Piece, PieceRef};
pub use plain::is_plain;
pub use tree::{CArg, CAtom, CBlock, CCall, CExpr, CStmt, CTy, CVar, Callee};
