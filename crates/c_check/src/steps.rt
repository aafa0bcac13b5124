// What stands around the piece behind another.
ghost use Rattle.std.specs.Prelude.{◌≡◌, ℕ, List, [], ◌∷◌, OnOk};
ghost use Rattle.c_tree.specs.declared.pieces.Piece.{Piece};
ghost use Rattle.c_tree.specs.Pieces.{opening, piece_of};
ghost use Rattle.c_meaning.specs.Breaches.{calls_of, called_in};
ghost use Rattle.c_check.specs.Agreeing.{SameState, IsNoted};
ghost use Rattle.c_check.specs.Scopes.{state_of};
ghost use Rattle.c_check.specs.Blocks.{IsOpen};
ghost use Rattle.c_check.specs.Walks.{after_piece, is_over};

use crate::room::Room;
use crate::scope::Scope;
use c_tree::{CCall, CExpr, CStmt, Callee, PieceRef};
use name_table::NameTable;
use scheme_data::{OutOfMemory, Text};

/// Notes a name.
pub fn note(names: &mut NameTable, name: &[u8]) -> Result<(), OutOfMemory>
    ensures { OnOk result (IsNoted names.old (name.now ∷ []) names.new) }
{
    names.insert(name)?;
    Ok(())
}

/// Notes the function that is called.
pub fn note_callee(called: &mut NameTable, callee: &Callee) -> Result<(), OutOfMemory>
    ensures { OnOk result (IsNoted called.old (called_in callee.now) called.new) }
{
    match callee {
        Callee::Fun(name) => note(called, name.as_bytes()),
        Callee::Op(_) => Ok(()),
    }
}

fn note_calls(called: &mut NameTable, e: &CExpr) -> Result<(), OutOfMemory>
    ensures { OnOk result (IsNoted called.old (calls_of e.now) called.new) }
{
    match e {
        CExpr::Atom(_) => Ok(()),
        CExpr::Call(call) => note_callee(called, &call.callee),
    }
}

impl<'a> Scope<'a> {
    fn pass(&mut self)
        requires { IsOpen self.old.blocks }
        ensures depths { IsOpen self.new.blocks }
        ensures next { (l : List ℕ) → SameState (state_of self.new) (after_piece (state_of self.old) (Piece.Goto l)) }
    {
        self.room = self.room.behind();
    }

    fn pass_value(&mut self, e: &CExpr) -> Result<(), OutOfMemory>
        requires { IsOpen self.old.blocks }
        ensures depths { OnOk result (IsOpen self.new.blocks) }
        ensures next { OnOk result (SameState (state_of self.new) (after_piece (state_of self.old) (Piece.Return e.now))) }
    {
        note_calls(&mut self.called, e)?;
        self.room = self.room.behind();
        Ok(())
    }

    fn pass_call(&mut self, call: &CCall) -> Result<(), OutOfMemory>
        requires { IsOpen self.old.blocks }
        ensures depths { OnOk result (IsOpen self.new.blocks) }
        ensures next { OnOk result (SameState (state_of self.new) (after_piece (state_of self.old) (Piece.Call call.now))) }
    {
        note_callee(&mut self.called, &call.callee)?;
        self.room = self.room.behind();
        Ok(())
    }

    fn enter_branch(&mut self, condition: &CExpr) -> Result<(), OutOfMemory>
        requires { IsOpen self.old.blocks }
        ensures depths { OnOk result (IsOpen self.new.blocks) }
        ensures next { OnOk result (SameState (state_of self.new) (after_piece (state_of self.old) (Piece.If condition.now))) }
    {
        note_calls(&mut self.called, condition)?;
        self.blocks.branch(self.room)?;
        self.room = Room::Free;
        Ok(())
    }

    fn enter_loop(&mut self, label: &[u8]) -> Result<(), OutOfMemory>
        requires { IsOpen self.old.blocks }
        ensures depths { OnOk result (IsOpen self.new.blocks) }
        ensures next { OnOk result (SameState (state_of self.new) (after_piece (state_of self.old) (Piece.Loop label.now))) }
    {
        note(&mut self.labels, label)?;
        self.blocks.label(self.alloc, label, self.room)?;
        self.room = Room::Free;
        Ok(())
    }

    fn enter_block(&mut self) -> Result<(), OutOfMemory>
        requires { IsOpen self.old.blocks }
        ensures depths { OnOk result (IsOpen self.new.blocks) }
        ensures next { OnOk result (SameState (state_of self.new) (after_piece (state_of self.old) Piece.Begin)) }
    {
        let label = match self.ahead.pop() {
            None => Text::new(self.alloc),
            Some(label) => label,
        };
        self.blocks.label(self.alloc, label.as_bytes(), self.room)?;
        self.room = Room::Free;
        Ok(())
    }

    fn enter_held(&mut self) -> Result<(), OutOfMemory>
        requires { IsOpen self.old.blocks }
        ensures depths { OnOk result (IsOpen self.new.blocks) }
        ensures next { OnOk result (SameState (state_of self.new) (after_piece (state_of self.old) Piece.Protect)) }
    {
        self.blocks.hold(self.room)?;
        self.room = Room::Free;
        Ok(())
    }

    fn leave(&mut self) -> Result<(), OutOfMemory>
        requires { IsOpen self.old.blocks }
        ensures depths { OnOk result (IsOpen self.new.blocks) }
        ensures next { OnOk result (state_of self.new ≡ is_over (state_of self.old)) }
    {
        let around = self.blocks.close()?;
        self.room = self.room.after(around);
        Ok(())
    }

    fn leave_labelled(&mut self, label: &[u8]) -> Result<(), OutOfMemory>
        requires { IsOpen self.old.blocks }
        ensures depths { OnOk result (IsOpen self.new.blocks) }
        ensures next { OnOk result (SameState (state_of self.new) (after_piece (state_of self.old) (Piece.Ended label.now))) }
    {
        self.leave()?;
        note(&mut self.labels, label)?;
        Ok(())
    }

    fn enter_statement(&mut self, statement: &CStmt) -> Result<(), OutOfMemory>
        requires { IsOpen self.old.blocks }
        ensures depths { OnOk result (IsOpen self.new.blocks) }
        ensures next { OnOk result (SameState (state_of self.new) (after_piece (state_of self.old) (opening statement.now))) }
    {
        match statement {
            CStmt::Assign(_, e) => self.pass_value(e),
            CStmt::Call(call) => self.pass_call(call),
            CStmt::Return(e) => self.pass_value(e),
            CStmt::If(condition, _, _) => self.enter_branch(condition),
            CStmt::Loop(label, _) => self.enter_loop(label.as_bytes()),
            CStmt::Ended(_, _) => self.enter_block(),
            CStmt::Goto(_) => {
                self.pass();
                Ok(())
            }
            CStmt::Catch(_, _, _) => self.enter_held(),
            CStmt::Protect(_, _) => self.enter_held(),
        }
    }

    /// Goes on behind a piece.
    pub fn enter(&mut self, piece: &PieceRef<'_>) -> Result<(), OutOfMemory>
        requires { IsOpen self.old.blocks }
        ensures depths { OnOk result (IsOpen self.new.blocks) }
        ensures next { OnOk result (SameState (state_of self.new) (after_piece (state_of self.old) (piece_of piece.now))) }
    {
        match piece {
            PieceRef::Statement(statement) => self.enter_statement(statement),
            PieceRef::Else => Ok(()),
            PieceRef::Ended(label) => self.leave_labelled(label.as_bytes()),
            PieceRef::Cleanup => Ok(()),
            PieceRef::End => self.leave(),
        }
    }
}
