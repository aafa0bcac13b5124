ghost use Rattle.std.specs.Prelude.{◌≡◌, ◌≤◌, ◌↔◌, [], Some, IfOk, OnOk, IsTrue, length};
ghost use Rattle.c_tree.specs.declared.building.Building.{Building};
ghost use Rattle.c_tree.specs.Layout.{block, IsLaid};
ghost use Rattle.c_tree.specs.Steps.{weight, end_on, stop_on, else_on, cleanup_on, less, in_front, put, put_with};

use crate::closing::{Closing, Stop};
use crate::laying::Layout;
use crate::pieces::Piece;
use crate::tree::{CBlock, CExpr, CStmt};
use scheme_data::{OutOfMemory, Stack, Text};
use std::alloc::Global;

/// The statements of the last pieces of a text.
#[derive(Drop)]
pub struct Building {
    // the place of the first of them
    at: u64,
    stmts: Stack<CStmt>,
    // the blocks that end among them and begin before, innermost first
    closings: Stack<Closing>,
}

impl Building {
    pub fn new(alloc: Global, at: u64) -> Building
        ensures { result ≡ record { at = at; stmts = []; closings = [] } }
    {
        Building {
            at,
            stmts: Stack::new(alloc),
            closings: Stack::new(alloc),
        }
    }

    // The block that begins with the first of the statements.
    fn block_to(&self, end: u64) -> CBlock
        ensures { result ≡ block self.now.at end }
    {
        CBlock {
            first: self.at,
            end,
        }
    }

    fn add(&mut self, statement: CStmt) -> Result<(), OutOfMemory>
        requires { 1 ≤ self.old.at }
        ensures { OnOk result (self.new ≡ in_front statement self.old) }
    {
        self.at -= 1;
        self.stmts.push(statement)
    }

    // Takes the innermost block that ends, where it ends at a place.
    fn take_end(&mut self) -> Option<u64>
        ensures found { result ≡ end_on self.old.closings }
        ensures left { self.new ≡ less self.old }
    {
        match self.closings.pop() {
            Some(Closing::End(end)) => Some(end),
            Some(Closing::Ended(_)) => None,
            Some(Closing::Else(_)) => None,
            Some(Closing::Cleanup(_)) => None,
            None => None,
        }
    }

    fn take_stop(&mut self) -> Option<Stop>
        ensures found { result ≡ stop_on self.old.closings }
        ensures left { self.new ≡ less self.old }
    {
        match self.closings.pop() {
            Some(Closing::Ended(stop)) => Some(stop),
            Some(Closing::End(_)) => None,
            Some(Closing::Else(_)) => None,
            Some(Closing::Cleanup(_)) => None,
            None => None,
        }
    }

    fn take_else(&mut self) -> Option<CBlock>
        ensures found { result ≡ else_on self.old.closings }
        ensures left { self.new ≡ less self.old }
    {
        match self.closings.pop() {
            Some(Closing::Else(second)) => Some(second),
            Some(Closing::End(_)) => None,
            Some(Closing::Ended(_)) => None,
            Some(Closing::Cleanup(_)) => None,
            None => None,
        }
    }

    fn take_cleanup(&mut self) -> Option<CBlock>
        ensures found { result ≡ cleanup_on self.old.closings }
        ensures left { self.new ≡ less self.old }
    {
        match self.closings.pop() {
            Some(Closing::Cleanup(second)) => Some(second),
            Some(Closing::End(_)) => None,
            Some(Closing::Ended(_)) => None,
            Some(Closing::Else(_)) => None,
            None => None,
        }
    }

    fn put_if(&mut self, condition: CExpr) -> Result<bool, OutOfMemory>
        requires { 1 ≤ self.old.at }
        ensures { IfOk result (λ fits. put (Piece.If condition) self.old ≡ put_with fits self.new) }
    {
        let Some(second) = self.take_else() else {
            return Ok(false);
        };
        let first = self.block_to(second.first);
        self.add(CStmt::If(condition, first, second))?;
        Ok(true)
    }

    fn put_protect(&mut self) -> Result<bool, OutOfMemory>
        requires { 1 ≤ self.old.at }
        ensures { IfOk result (λ fits. put Piece.Protect self.old ≡ put_with fits self.new) }
    {
        let Some(second) = self.take_cleanup() else {
            return Ok(false);
        };
        let first = self.block_to(second.first);
        self.add(CStmt::Protect(first, second))?;
        Ok(true)
    }

    fn put_else(&mut self) -> Result<bool, OutOfMemory>
        ensures { IfOk result (λ fits. put Piece.Else self.old ≡ put_with fits self.new) }
    {
        let Some(end) = self.take_end() else {
            return Ok(false);
        };
        let second = self.block_to(end);
        self.closings.push(Closing::Else(second))?;
        Ok(true)
    }

    fn put_cleanup(&mut self) -> Result<bool, OutOfMemory>
        ensures { IfOk result (λ fits. put Piece.Cleanup self.old ≡ put_with fits self.new) }
    {
        let Some(end) = self.take_end() else {
            return Ok(false);
        };
        let second = self.block_to(end);
        self.closings.push(Closing::Cleanup(second))?;
        Ok(true)
    }

    fn put_loop(&mut self, label: Text) -> Result<bool, OutOfMemory>
        requires { 1 ≤ self.old.at }
        ensures { IfOk result (λ fits. put (Piece.Loop label) self.old ≡ put_with fits self.new) }
    {
        let Some(end) = self.take_end() else {
            return Ok(false);
        };
        let body = self.block_to(end);
        self.add(CStmt::Loop(label, body))?;
        Ok(true)
    }

    fn put_catch(&mut self, exit: Text, carried: Text) -> Result<bool, OutOfMemory>
        requires { 1 ≤ self.old.at }
        ensures { IfOk result (λ fits. put (Piece.Catch exit carried) self.old ≡ put_with fits self.new) }
    {
        let Some(end) = self.take_end() else {
            return Ok(false);
        };
        let body = self.block_to(end);
        self.add(CStmt::Catch(exit, carried, body))?;
        Ok(true)
    }

    fn put_begin(&mut self) -> Result<bool, OutOfMemory>
        requires { 1 ≤ self.old.at }
        ensures { IfOk result (λ fits. put Piece.Begin self.old ≡ put_with fits self.new) }
    {
        let Some(Stop { end, label }) = self.take_stop() else {
            return Ok(false);
        };
        let body = self.block_to(end);
        self.add(CStmt::Ended(body, label))?;
        Ok(true)
    }

    fn put_stop(&mut self, label: Text) -> Result<(), OutOfMemory>
        ensures { OnOk result (put (Piece.Ended label) self.old ≡ Some self.new) }
    {
        let end = self.at;
        self.closings.push(Closing::Ended(Stop { end, label }))
    }

    /// Puts a piece in front; false where it doesn't fit there.
    pub fn put(&mut self, piece: Piece) -> Result<bool, OutOfMemory>
        requires { weight piece ≤ self.old.at }
        ensures { IfOk result (λ fits. put piece self.old ≡ put_with fits self.new) }
    {
        match piece {
            Piece::Assign(name, value) => self.add(CStmt::Assign(name, value))?,
            Piece::Call(call) => self.add(CStmt::Call(call))?,
            Piece::Return(value) => self.add(CStmt::Return(value))?,
            Piece::Goto(label) => self.add(CStmt::Goto(label))?,
            Piece::If(condition) => return self.put_if(condition),
            Piece::Else => return self.put_else(),
            Piece::Loop(label) => return self.put_loop(label),
            Piece::Begin => return self.put_begin(),
            Piece::Ended(label) => self.put_stop(label)?,
            Piece::Catch(exit, carried) => return self.put_catch(exit, carried),
            Piece::Protect => return self.put_protect(),
            Piece::Cleanup => return self.put_cleanup(),
            Piece::End => self.closings.push(Closing::End(self.at))?,
        }
        Ok(true)
    }

    /// Whether each block that ends among the statements begins among them.
    pub fn is_whole(&self) -> bool
        ensures { IsTrue result ↔ (self.now.closings ≡ []) }
    {
        self.closings.is_empty()
    }

    /// The statements in one list, of which no block is left open.
    pub fn finish(self) -> Layout
        requires { IsLaid self.stmts (block 0 (length self.stmts)) }
        ensures { (result.stmts ≡ self.stmts) × (result.body ≡ block 0 (length self.stmts)) }
    {
        let stmts = self.stmts.into_list();
        let body = CBlock {
            first: 0,
            end: stmts.len(),
        };
        Layout { body, stmts }
    }
}
