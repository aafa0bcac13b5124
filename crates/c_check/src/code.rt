// What is wrong with a function's statements.
ghost use Rattle.std.specs.Prelude.{◌≡◌, [], false, map, IfOk, OnOk};
ghost use Rattle.std.specs.List.{list_any};
ghost use Rattle.c_tree.specs.declared.pieces.Piece.{Piece};
ghost use Rattle.c_tree.specs.Pieces.{opening, piece_of};
ghost use Rattle.c_meaning.specs.Breaches.{is_function, calls_of, called_in};
ghost use Rattle.c_check.specs.Firsts.{first};
ghost use Rattle.c_check.specs.Blocks.{IsOpen};
ghost use Rattle.c_check.specs.Scopes.{state_of};
ghost use Rattle.c_check.specs.Roles.{role_as};
ghost use Rattle.c_check.specs.Walks.{put_end, ends_of, walk_breaches};
ghost use Rattle.c_check.specs.Pieces.{ends_as, calls_function, returns_at, ends_in_return, are_complete};

use crate::role::{Role, is_function};
use crate::scope::Scope;
use c_meaning::BadCause;
use c_tree::{CExpr, CStmt, Callee, PieceRef};
use scheme_data::{OutOfMemory, Stack, Text};
use std::alloc::Global;

/// The labels behind blocks, from the last piece to the first.
#[derive(Drop)]
pub struct Ends {
    /// Of the blocks that begin further in front, innermost first.
    pub waiting: Stack<Text>,
    /// Of the blocks that begin among the pieces, in text order.
    pub begun: Stack<Text>,
}

impl Ends {
    fn new(alloc: Global) -> Ends
        ensures { ends_as result ≡ ends_of [] }
    {
        Ends {
            waiting: Stack::new(alloc),
            begun: Stack::new(alloc),
        }
    }

    fn begin(&mut self, alloc: Global) -> Result<(), OutOfMemory>
        ensures { OnOk result (ends_as self.new ≡ put_end Piece.Begin (ends_as self.old)) }
    {
        let label = match self.waiting.pop() {
            None => Text::new(alloc),
            Some(label) => label,
        };
        self.begun.push(label)?;
        Ok(())
    }

    fn end(&mut self, alloc: Global, label: &[u8]) -> Result<(), OutOfMemory>
        ensures { OnOk result (ends_as self.new ≡ put_end (Piece.Ended label.now) (ends_as self.old)) }
    {
        self.waiting.push(Text::from_bytes(alloc, label)?)?;
        Ok(())
    }

    fn put_statement(&mut self, alloc: Global, statement: &CStmt) -> Result<(), OutOfMemory>
        ensures { OnOk result (ends_as self.new ≡ put_end (opening statement.now) (ends_as self.old)) }
    {
        match statement {
            CStmt::Assign(_, _) => Ok(()),
            CStmt::Call(_) => Ok(()),
            CStmt::Return(_) => Ok(()),
            CStmt::If(_, _, _) => Ok(()),
            CStmt::Loop(_, _) => Ok(()),
            CStmt::Ended(_, _) => self.begin(alloc),
            CStmt::Goto(_) => Ok(()),
            CStmt::Catch(_, _, _) => Ok(()),
            CStmt::Protect(_, _) => Ok(()),
        }
    }

    fn put(&mut self, alloc: Global, piece: &PieceRef<'_>) -> Result<(), OutOfMemory>
        ensures { OnOk result (ends_as self.new ≡ put_end (piece_of piece.now) (ends_as self.old)) }
    {
        match piece {
            PieceRef::Statement(statement) => self.put_statement(alloc, statement),
            PieceRef::Else => Ok(()),
            PieceRef::Ended(label) => self.end(alloc, label.as_bytes()),
            PieceRef::Cleanup => Ok(()),
            PieceRef::End => Ok(()),
        }
    }
}

/// The labels behind the blocks of these pieces, in the order in which the blocks begin.
pub fn labels_ahead(alloc: Global, pieces: &[PieceRef<'_>]) -> Result<Stack<Text>, OutOfMemory>
    ensures { IfOk result (λ labels. labels ≡ (ends_of (map piece_of pieces.now)).begun) }
{
    let mut ends = Ends::new(alloc);
    for i in (0..pieces.len()).rev() {
        ends.put(alloc, &pieces[i])?;
    }
    Ok(ends.begun)
}

/// The first thing that is wrong at these pieces.
pub fn pieces_fault(
    scope: &mut Scope<'_>,
    pieces: &[PieceRef<'_>],
) -> Result<Option<BadCause>, OutOfMemory>
    requires { IsOpen scope.old.blocks }
    ensures { IfOk result (λ fault. fault ≡ first (walk_breaches (state_of scope.old) (map piece_of pieces.now))) }
{
    for piece in pieces {
        let fault = scope.fault(piece);
        if fault.is_some() {
            return Ok(fault);
        }
        scope.enter(piece)?;
    }
    Ok(None)
}

fn callee_is_function(callee: &Callee) -> bool
    ensures { result ≡ list_any is_function (called_in callee.now) }
{
    match callee {
        Callee::Fun(name) => is_function(name.as_bytes()),
        Callee::Op(_) => false,
    }
}

fn expression_calls(e: &CExpr) -> bool
    ensures { result ≡ list_any is_function (calls_of e.now) }
{
    match e {
        CExpr::Atom(_) => false,
        CExpr::Call(call) => callee_is_function(&call.callee),
    }
}

fn statement_calls(statement: &CStmt) -> bool
    ensures { result ≡ calls_function (opening statement.now) }
{
    match statement {
        CStmt::Assign(_, e) => expression_calls(e),
        CStmt::Call(call) => callee_is_function(&call.callee),
        CStmt::Return(e) => expression_calls(e),
        CStmt::If(condition, _, _) => expression_calls(condition),
        CStmt::Loop(_, _) => false,
        CStmt::Ended(_, _) => false,
        CStmt::Goto(_) => false,
        CStmt::Catch(_, _, _) => false,
        CStmt::Protect(_, _) => false,
    }
}

fn piece_calls(piece: &PieceRef<'_>) -> bool
    ensures { result ≡ calls_function (piece_of piece.now) }
{
    match piece {
        PieceRef::Statement(statement) => statement_calls(statement),
        PieceRef::Else => false,
        PieceRef::Ended(_) => false,
        PieceRef::Cleanup => false,
        PieceRef::End => false,
    }
}

fn any_calls(pieces: &[PieceRef<'_>]) -> bool
    ensures { result ≡ list_any calls_function (map piece_of pieces.now) }
{
    for piece in pieces {
        if piece_calls(piece) {
            return true;
        }
    }
    false
}

fn is_return(piece: &PieceRef<'_>) -> bool
    ensures { result ≡ returns_at (piece_of piece.now) }
{
    match piece {
        PieceRef::Statement(CStmt::Return(_)) => true,
        _ => false,
    }
}

fn end_in_return(pieces: &[PieceRef<'_>]) -> bool
    ensures { result ≡ ends_in_return false (map piece_of pieces.now) }
{
    match pieces.last() {
        None => false,
        Some(piece) => is_return(piece),
    }
}

/// Whether nothing is wanted at the closing brace of a function with this role.
pub fn are_complete(role: Role, pieces: &[PieceRef<'_>]) -> bool
    ensures { result ≡ are_complete (role_as role) (map piece_of pieces.now) }
{
    match role {
        Role::Function => !pieces.is_empty(),
        Role::Entry => end_in_return(pieces) && any_calls(pieces),
        Role::Main => end_in_return(pieces),
        Role::Maker => end_in_return(pieces),
        Role::Initializer => end_in_return(pieces),
    }
}
