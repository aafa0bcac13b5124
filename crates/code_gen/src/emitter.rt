ghost use Rattle.std.specs.Prelude.{◌≡◌, IfOk, OnOk};
ghost use Rattle.code_gen.specs.Emission.{IsFresh, AddsLocal, Puts, Stores, LeavesUnset, piece_to};

use crate::parts::c_type;
use c_tree::{CExpr, CVar, Piece, local_name_text};
use plan_rules::Rep;
use scheme_data::{List, OutOfMemory};
use std::alloc::Global;

/// A value: the number of its local, and how the local holds it.
#[derive(Clone, Copy, Debug)]
pub struct Held {
    pub local: u32,
    pub rep: Rep,
}

/// Where a value goes: into the local of a number, or back from the function.
#[derive(Clone, Copy, Debug)]
pub enum Target {
    Into(u32),
    Back,
}

/// A function that is being written: the pieces of its statements, its locals, and the number of the next local.
#[derive(Drop)]
pub struct Emitter {
    pub alloc: Global,
    pub pieces: List<Piece>,
    pub locals: List<CVar>,
    pub next: u32,
}

impl Emitter {
    /// No statements and no locals yet.
    pub fn new(alloc: Global, next: u32) -> Emitter
        ensures { IsFresh result next }
    {
        Emitter {
            alloc,
            pieces: List::new(alloc),
            locals: List::new(alloc),
            next,
        }
    }

    // A new local, which the next number names.
    fn local(&mut self, rep: Rep) -> Result<u32, OutOfMemory>
        ensures { IfOk result (λ x. AddsLocal self.old self.new rep x) }
    {
        let number = self.next;
        let next = number.checked_add(1).ok_or(OutOfMemory)?;
        let name = local_name_text(self.alloc, number)?;
        self.locals.push(CVar {
            ty: c_type(rep),
            name,
        })?;
        self.next = next;
        Ok(number)
    }

    /// One piece more.
    pub fn put(&mut self, piece: Piece) -> Result<(), OutOfMemory>
        ensures { OnOk result (Puts self.old self.new piece) }
    {
        self.pieces.push(piece)
    }

    /// A value goes to a target.
    pub fn deliver(&mut self, target: Target, value: CExpr) -> Result<(), OutOfMemory>
        ensures { OnOk result (Puts self.old self.new (piece_to target value)) }
    {
        match target {
            Target::Into(x) => {
                let name = local_name_text(self.alloc, x)?;
                self.put(Piece::Assign(name, value))
            }
            Target::Back => self.put(Piece::Return(value)),
        }
    }

    /// A value in a new local.
    pub fn store(&mut self, rep: Rep, value: CExpr) -> Result<Held, OutOfMemory>
        ensures { IfOk result (λ held. Stores self.old self.new rep value held) }
    {
        let local = self.local(rep)?;
        self.deliver(Target::Into(local), value)?;
        Ok(Held { local, rep })
    }

    /// A new local without a value.
    pub fn unset(&mut self, rep: Rep) -> Result<Held, OutOfMemory>
        ensures { IfOk result (λ held. LeavesUnset self.old self.new rep held) }
    {
        let local = self.local(rep)?;
        Ok(Held { local, rep })
    }
}
