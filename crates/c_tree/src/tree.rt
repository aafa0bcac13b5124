use crate::op::Op;
use scheme_data::{List, Text};

/// A C type.
#[derive(Clone, Copy, Debug, PartialEq, Eq)]
pub enum CTy {
    Obj,
    Long,
    Char,
    Int,
}

/// An atom: a number, a local or a global by its name, a symbol by the name of its atom, or a constant.
#[derive(Drop, Debug)]
pub enum CAtom {
    Int(i64),
    Name(Text),
    Sym(Text),
    False,
    True,
    Nil,
    Unspec,
    Eof,
}

/// An argument of a call. A string is kept as the bytes that it stands for. `Entry` is the address of an entry, `&` and its name.
#[derive(Drop, Debug)]
pub enum CArg {
    Atom(CAtom),
    Str(Text),
    Entry(Text),
}

/// What is called: a function by its name, or an operation.
#[derive(Drop, Debug)]
pub enum Callee {
    Fun(Text),
    Op(Op),
}

/// A call.
#[derive(Drop, Debug)]
pub struct CCall {
    pub callee: Callee,
    pub args: List<CArg>,
}

/// An expression.
#[derive(Drop, Debug)]
pub enum CExpr {
    Atom(CAtom),
    Call(CCall),
}

/// A range of places in a list of statements, of which the end is the first that is no part of it.
#[derive(Clone, Copy, Debug, PartialEq, Eq)]
pub struct CBlock {
    pub first: u64,
    pub end: u64,
}

/// A statement. Blocks are ranges in the list in which the statement stands.
#[derive(Drop, Debug)]
pub enum CStmt {
    /// To a local or a global.
    Assign(Text, CExpr),
    Call(CCall),
    Return(CExpr),
    If(CExpr, CBlock, CBlock),
    /// A label and the block of its `for`.
    Loop(Text, CBlock),
    /// A block and the label behind it.
    Ended(CBlock, Text),
    Goto(Text),
    /// The locals for the exit and for what an escape to it carries, and the block that it leaves.
    Catch(Text, Text, CBlock),
    /// A block, and the block that is done however the first was left.
    Protect(CBlock, CBlock),
}

/// A variable with its type.
#[derive(Drop, Debug)]
pub struct CVar {
    pub ty: CTy,
    pub name: Text,
}
