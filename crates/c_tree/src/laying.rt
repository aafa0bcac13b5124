ghost use Rattle.c_tree.specs.Layout.{IsLaid};

use crate::tree::{CBlock, CStmt};
use scheme_data::List;

/// The statements of a function in one list, and the range of all of them.
#[derive(Drop, Debug)]
pub struct Layout {
    pub body: CBlock,
    pub stmts: List<CStmt>,
    pub ghost laid: { IsLaid stmts body },
}
