ghost use Rattle.c_tree.specs.Layout.{IsLaid};

use crate::tree::{CBlock, CStmt, CTy, CVar};
use scheme_data::{List, Text};

/// A definition of a function. Its statements stand in one list in text order, and `body` is the range of all of them.
#[derive(Drop, Debug)]
pub struct CFun {
    pub result: CTy,
    pub name: Text,
    pub params: List<CVar>,
    pub locals: List<CVar>,
    pub body: CBlock,
    pub stmts: List<CStmt>,
    pub ghost laid: { IsLaid stmts body },
}

/// A declaration or a definition of a global or a function.
#[derive(Drop, Debug)]
pub enum CItem {
    /// A global that is defined elsewhere or further on.
    Extern(CVar),
    /// A global.
    Global(CVar),
    Declared(CTy, Text, List<CTy>),
    Defined(CFun),
}

/// The C text of one module.
#[derive(Drop, Debug)]
pub struct CUnit {
    pub items: List<CItem>,
}

/// A linked C text.
#[derive(Drop, Debug)]
pub struct CProgram {
    pub items: List<CItem>,
}
