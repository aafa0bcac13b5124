use crate::tree::{CCall, CExpr, CStmt};
use scheme_data::Text;

/// A piece of a text of statements: a statement without blocks, or where a block begins or ends.
#[derive(Drop, Debug)]
pub enum Piece {
    Assign(Text, CExpr),
    Call(CCall),
    Return(CExpr),
    Goto(Text),
    /// `if` and its condition, where its block begins.
    If(CExpr),
    /// Where the block of an `if` ends and that of its `else` begins.
    Else,
    Loop(Text),
    /// Where a block that ends with a label begins.
    Begin,
    /// Where such a block ends, and its label.
    Ended(Text),
    Catch(Text, Text),
    Protect,
    /// Where the first block of a `BGL_PROTECT` ends and the second begins.
    Cleanup,
    /// Where any other block ends.
    End,
}

/// A piece of a text of statements: a statement, whose blocks follow piece by piece, or where a block ends.
#[derive(Clone, Copy, Debug)]
pub enum PieceRef<'a> {
    Statement(&'a CStmt),
    Else,
    Ended(&'a Text),
    Cleanup,
    End,
}
