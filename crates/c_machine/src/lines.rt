// From pieces to lines, from the last piece to the first.
ghost use Rattle.std.specs.Prelude.{◌≡◌, [], ◌∷◌, IfOk, OnOk};
ghost use Rattle.c_tree.specs.Pieces.{piece_of, opening};
ghost use Rattle.c_machine.specs.Decoded.{line};
ghost use Rattle.c_machine.specs.Decoding.{started, put, shut, parted, begun, second_in, decoded};
ghost use Rattle.c_machine.specs.declared.program.Instr.TheVariants.{Give};

use crate::instructions::{call, expression};
use crate::names::local_place;
use crate::program::{FIRST, Instr, Line, Target};
use c_check::Places;
use c_tree::{CStmt, PieceRef};
use name_table::NameTable;
use scheme_data::{List, OutOfMemory, Stack};
use std::alloc::Global;

/// A statement whose end was met, and whose beginning was not: where the function goes on after it, and where the second of its blocks begins.
#[derive(Clone, Copy, Debug)]
pub struct Open {
    pub after: usize,
    pub second: usize,
}

/// What was decoded so far: the place of its first line, where the function goes on before that, the statements that are open, and the lines.
#[derive(Drop)]
pub struct Decoding {
    pub at: usize,
    pub next: usize,
    pub blocks: Stack<Open>,
    pub lines: Stack<Line>,
}

impl Decoding {
    /// No piece, and the instruction that stands at the end.
    pub fn new(alloc: Global, end: usize, last: Instr) -> Result<Decoding, OutOfMemory>
        ensures { IfOk result (λ d. d ≡ started end last) }
    {
        let mut lines = Stack::new(alloc);
        lines.push(Line {
            instr: last,
            next: end,
        })?;
        Ok(Decoding {
            at: end,
            next: end,
            blocks: Stack::new(alloc),
            lines,
        })
    }

    // A line in front of the others.
    fn put(&mut self, instr: Instr) -> Result<(), OutOfMemory>
        ensures { OnOk result (self.new ≡ put instr self.old) }
    {
        let next = self.next;
        self.lines.push(Line { instr, next })?;
        self.at = self.at.saturating_sub(1);
        self.next = self.at;
        Ok(())
    }

    // The end of a statement with blocks.
    fn end(&mut self) -> Result<(), OutOfMemory>
        ensures { OnOk result (self.new ≡ shut self.old) }
    {
        let next = self.next;
        self.blocks.push(Open {
            after: next,
            second: next,
        })
    }

    // The beginning of the second block.
    fn part(&mut self) -> Result<(), OutOfMemory>
        ensures { OnOk result (self.new ≡ parted self.old.blocks self.old) }
    {
        let second = self.next;
        match self.blocks.pop() {
            None => Ok(()),
            Some(open) => {
                self.next = open.after;
                self.blocks.push(Open {
                    after: open.after,
                    second,
                })
            }
        }
    }

    // The beginning of a statement with blocks. Gives where the second one begins.
    fn begin(&mut self) -> usize
        ensures second { result ≡ second_in self.old.blocks }
        ensures begun { self.new ≡ begun self.old.blocks self.old }
    {
        match self.blocks.pop() {
            None => 0,
            Some(open) => open.second,
        }
    }

    // The instruction of a statement, behind what opens or ends with it.
    fn instruction(
        &mut self,
        alloc: Global,
        names: &Places,
        funs: &NameTable,
        s: &CStmt,
    ) -> Result<Instr, OutOfMemory>
        ensures { IfOk result (λ instr. put instr self.new ≡ decoded names.now funs.now (opening s.now) self.old) }
    {
        match s {
            CStmt::Assign(x, e) => {
                let to = Target::Local(local_place(names, x.as_bytes()));
                expression(alloc, names, funs, to, e)
            }
            CStmt::Call(c) => call(alloc, names, funs, Target::Nowhere, c),
            CStmt::Return(e) => expression(alloc, names, funs, Target::Caller, e),
            CStmt::If(e, _, _) => {
                let to = Target::Test(self.begin());
                expression(alloc, names, funs, to, e)
            }
            CStmt::Loop(_, _) => {
                let _ = self.begin();
                Ok(Instr::Turn)
            }
            CStmt::Goto(_) => Ok(Instr::Stop),
            CStmt::Ended(_, _) | CStmt::Catch(_, _, _) | CStmt::Protect(_, _) => {
                let _ = self.begin();
                Ok(Instr::Stop)
            }
        }
    }

    fn statement(
        &mut self,
        alloc: Global,
        names: &Places,
        funs: &NameTable,
        s: &CStmt,
    ) -> Result<(), OutOfMemory>
        ensures { OnOk result (self.new ≡ decoded names.now funs.now (opening s.now) self.old) }
    {
        let instr = self.instruction(alloc, names, funs, s)?;
        self.put(instr)?;
        Ok(())
    }

    /// One more piece, in front of those that were decoded.
    pub fn piece(
        &mut self,
        alloc: Global,
        names: &Places,
        funs: &NameTable,
        p: &PieceRef<'_>,
    ) -> Result<(), OutOfMemory>
        ensures { OnOk result (self.new ≡ decoded names.now funs.now (piece_of p.now) self.old) }
    {
        match p {
            PieceRef::Statement(s) => self.statement(alloc, names, funs, s),
            PieceRef::Else | PieceRef::Cleanup => self.part(),
            PieceRef::Ended(_) | PieceRef::End => self.end(),
        }
    }

    /// The lines, behind the one that gives the function's value.
    pub fn code(self, alloc: Global) -> Result<List<Line>, OutOfMemory>
        ensures { IfOk result (λ code. code ≡ line Give 1 ∷ self.lines) }
    {
        let mut lines = self.lines;
        let mut code = List::new(alloc);
        push_lines(&mut lines, &mut code)?;
        Ok(code)
    }
}

// The line that gives the function's value, and these lines.
fn push_lines(lines: &mut Stack<Line>, code: &mut List<Line>) -> Result<(), OutOfMemory>
    requires { code.old ≡ [] }
    ensures { OnOk result (code.new ≡ line Give 1 ∷ lines.old) }
{
    code.push(Line {
        instr: Instr::Give,
        next: FIRST,
    })?;
    while let Some(line) = lines.pop() {
        code.push(line)?;
    }
    Ok(())
}
