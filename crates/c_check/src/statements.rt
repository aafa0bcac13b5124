// What is wrong with a statement, whatever stands in its blocks.
ghost use Rattle.std.specs.Prelude.{◌≡◌, not, true, ◌&&◌};
ghost use Rattle.c_meaning.specs.Breaches.{has, may_loop, may_stand};
ghost use Rattle.c_tree.specs.declared.pieces.Piece.{Piece};
ghost use Rattle.c_tree.specs.Pieces.{opening, piece_of};
ghost use Rattle.c_check.specs.Firsts.{first};
ghost use Rattle.c_check.specs.Scopes.{scope_of};
ghost use Rattle.c_check.specs.Blocks.{IsOpen};
ghost use Rattle.c_check.specs.Walks.{piece_breaches};

use crate::causes::{name_fault, unless};
use crate::scope::Scope;
use c_meaning::BadCause;
use c_tree::{CCall, CExpr, CStmt, CTy, PieceRef};

impl<'a> Scope<'a> {
    fn assign_fault(&self, x: &[u8], e: &CExpr) -> Option<BadCause>
        ensures { result ≡ first (piece_breaches (scope_of self.now) (Piece.Assign x.now e.now)) }
    {
        let t = self.variable_type(x);
        name_fault(None, t)
            .or(self.standing_fault())
            .or(self.expression_fault(t, e))
    }

    fn call_fault(&self, call: &CCall) -> Option<BadCause>
        ensures { result ≡ first (piece_breaches (scope_of self.now) (Piece.Call call.now)) }
    {
        self.callee_fault(None, &call.callee)
            .or(self.standing_fault())
            .or(self.operands_fault(call))
    }

    fn return_fault(&self, e: &CExpr) -> Option<BadCause>
        requires { IsOpen self.now.blocks }
        ensures { result ≡ first (piece_breaches (scope_of self.now) (Piece.Return e.now)) }
    {
        unless(BadCause::Label, self.blocks.may_return())
            .or(self.standing_fault())
            .or(self.expression_fault(Some(self.gives), e))
    }

    fn if_fault(&self, condition: &CExpr) -> Option<BadCause>
        ensures { result ≡ first (piece_breaches (scope_of self.now) (Piece.If condition.now)) }
    {
        self.standing_fault()
            .or(self.expression_fault(Some(CTy::Int), condition))
    }

    fn is_new(&self, label: &[u8]) -> bool
        ensures { result ≡ not (has (scope_of self.now).labels label.now) }
    {
        !self.labels.contains(label)
    }

    fn may_loop(&self) -> bool
        ensures { result ≡ (may_loop (scope_of self.now).role && may_stand (scope_of self.now).room true) }
    {
        self.role.may_loop() && self.room.may_hold(true)
    }

    fn loop_fault(&self, label: &[u8]) -> Option<BadCause>
        ensures { result ≡ first (piece_breaches (scope_of self.now) (Piece.Loop label.now)) }
    {
        unless(BadCause::Twice, self.is_new(label)).or(unless(BadCause::Shape, self.may_loop()))
    }

    fn goto_fault(&self, label: &[u8]) -> Option<BadCause>
        requires { IsOpen self.now.blocks }
        ensures { result ≡ first (piece_breaches (scope_of self.now) (Piece.Goto label.now)) }
    {
        self.standing_fault()
            .or(unless(BadCause::Label, self.blocks.may_go(label)))
    }

    fn catch_fault(&self, exit: &[u8], carried: &[u8]) -> Option<BadCause>
        ensures { result ≡ first (piece_breaches (scope_of self.now) (Piece.Catch exit.now carried.now)) }
    {
        self.standing_fault()
            .or(self.local_fault(exit).or(self.local_fault(carried)))
    }

    fn statement_fault(&self, statement: &CStmt) -> Option<BadCause>
        requires { IsOpen self.now.blocks }
        ensures { result ≡ first (piece_breaches (scope_of self.now) (opening statement.now)) }
    {
        match statement {
            CStmt::Assign(x, e) => self.assign_fault(x.as_bytes(), e),
            CStmt::Call(call) => self.call_fault(call),
            CStmt::Return(e) => self.return_fault(e),
            CStmt::If(condition, _, _) => self.if_fault(condition),
            CStmt::Loop(label, _) => self.loop_fault(label.as_bytes()),
            CStmt::Ended(_, _) => self.standing_fault(),
            CStmt::Goto(label) => self.goto_fault(label.as_bytes()),
            CStmt::Catch(exit, carried, _) => {
                self.catch_fault(exit.as_bytes(), carried.as_bytes())
            }
            CStmt::Protect(_, _) => self.standing_fault(),
        }
    }

    /// What is wrong at a piece.
    pub fn fault(&self, piece: &PieceRef<'_>) -> Option<BadCause>
        requires { IsOpen self.now.blocks }
        ensures { result ≡ first (piece_breaches (scope_of self.now) (piece_of piece.now)) }
    {
        match piece {
            PieceRef::Statement(statement) => self.statement_fault(statement),
            PieceRef::Else => None,
            PieceRef::Ended(label) => unless(BadCause::Twice, self.is_new(label.as_bytes())),
            PieceRef::Cleanup => None,
            PieceRef::End => None,
        }
    }
}
