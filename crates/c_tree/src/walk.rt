ghost use Rattle.std.specs.Prelude.{◌≡◌, [], IfOk, OnOk, slice_get};
ghost use Rattle.c_tree.specs.declared.walk.Walk.{Walk};
ghost use Rattle.c_tree.specs.Steps.{opened, is_over, closed, entered, next_step, step_of, position};

use crate::closing::Around;
use crate::pieces::PieceRef;
use crate::tree::CStmt;
use scheme_data::{OutOfMemory, Stack};
use std::alloc::Global;

/// A place in a list of statements, and the blocks around it, innermost first.
#[derive(Drop)]
pub struct Walk<'a> {
    at: u64,
    around: Stack<Around<'a>>,
}

impl<'a> Walk<'a> {
    /// The first place.
    pub fn new(alloc: Global) -> Walk<'a>
        ensures { result ≡ record { at = 0; around = [] } }
    {
        Walk {
            at: 0,
            around: Stack::new(alloc),
        }
    }

    fn is_over(&self) -> bool
        ensures { result ≡ is_over (slice_get (position self.now).closings 0) self.now.at }
    {
        match self.around.top() {
            Some(Around::End(end)) => *end == self.at,
            Some(Around::Ended(end, _)) => *end == self.at,
            Some(Around::Else(second)) => second.first == self.at,
            Some(Around::Cleanup(second)) => second.first == self.at,
            None => false,
        }
    }

    // The end of the innermost block, which is over here.
    fn close(&mut self) -> Result<Option<PieceRef<'a>>, OutOfMemory>
        ensures { IfOk result (λ shown. step_of shown self.new ≡ closed (position self.old).closings self.old.at) }
    {
        match self.around.pop() {
            Some(Around::End(_)) => Ok(Some(PieceRef::End)),
            Some(Around::Ended(_, label)) => Ok(Some(PieceRef::Ended(label))),
            Some(Around::Else(second)) => {
                self.around.push(Around::End(second.end))?;
                Ok(Some(PieceRef::Else))
            }
            Some(Around::Cleanup(second)) => {
                self.around.push(Around::End(second.end))?;
                Ok(Some(PieceRef::Cleanup))
            }
            None => Ok(None),
        }
    }

    fn open(&mut self, statement: &'a CStmt) -> Result<(), OutOfMemory>
        ensures { OnOk result (position self.new ≡ record { at = self.old.at; closings = opened statement.now (position self.old).closings }) }
    {
        match statement {
            CStmt::If(_, _, second) => self.around.push(Around::Else(*second)),
            CStmt::Loop(_, body) => self.around.push(Around::End(body.end)),
            CStmt::Ended(body, label) => self.around.push(Around::Ended(body.end, label)),
            CStmt::Catch(_, _, body) => self.around.push(Around::End(body.end)),
            CStmt::Protect(_, second) => self.around.push(Around::Cleanup(*second)),
            CStmt::Assign(_, _) => Ok(()),
            CStmt::Call(_) => Ok(()),
            CStmt::Return(_) => Ok(()),
            CStmt::Goto(_) => Ok(()),
        }
    }

    fn enter(&mut self, stmts: &'a [CStmt]) -> Result<Option<PieceRef<'a>>, OutOfMemory>
        ensures { IfOk result (λ shown. step_of shown self.new ≡ entered (slice_get stmts.now self.old.at) (position self.old)) }
    {
        if self.at >= stmts.len() as u64 {
            return Ok(None);
        }
        let statement = &stmts[self.at as usize];
        self.open(statement)?;
        self.at += 1;
        Ok(Some(PieceRef::Statement(statement)))
    }

    /// The next piece; none at the end of the list.
    pub fn next(&mut self, stmts: &'a [CStmt]) -> Result<Option<PieceRef<'a>>, OutOfMemory>
        ensures { IfOk result (λ shown. step_of shown self.new ≡ next_step stmts.now (position self.old)) }
    {
        if self.is_over() {
            return self.close();
        }
        self.enter(stmts)
    }
}
