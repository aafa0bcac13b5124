ghost use Rattle.std.specs.Prelude.{◌≡◌, ◌≤◌, [], false, IfOk, OnErr, Err, IsErrOf, replicate};
ghost use Rattle.base_io.specs.Causes.{Rose};
ghost use Rattle.c_tree.specs.Functions.{items_of};
ghost use Rattle.c_meaning.specs.Program.{cm};
ghost use Rattle.c_meaning.specs.Runnable.{is_runnable, IsRunnable};
ghost use Rattle.c_machine.specs.Runs.{Ran};

use crate::calling::push_zeros;
use crate::decoding::decode;
use crate::program::{FIRST, Function};
use crate::runnable::is_runnable;
use crate::stepping::{Acc, Flow, Regs, Stacks, fetch, function_at, step};
use base_io::{End, RunErr, Sink};
use c_check::Checked;
use scheme_data::{List, OutOfMemory, Stack, TextList};
use std::alloc::Global;
use std::marker::Model;

/// Why there is no machine for a checked program.
#[derive(Clone, Copy, Debug, PartialEq, Eq)]
pub enum LoadErr {
    /// It has a form that the machine doesn't do so far.
    NotRunnable,
    /// Memory was wanted and not given.
    Memory,
}

impl From<OutOfMemory> for LoadErr {
    ghost use Rattle.c_machine.specs.declared.machine.LoadErr.TheVariants.{Memory};

    ghost from_gives = { λ _ e. e ≡ Memory };

    fn from(_: OutOfMemory) -> Self {
        LoadErr::Memory
    }
}

/// A machine for one program.
#[derive(Drop)]
pub struct Machine {
    alloc: Global,
    program: Checked,
    functions: List<Function>,
    main: usize,
}

impl Model for Machine {
    ghost use Rattle.c_tree.specs.declared.function.CProgram.{CProgram};
    ghost use Rattle.c_tree.specs.contracts.function.CProgram as the_program;
    ghost use Rattle.c_machine.specs.Decoded.{IsDecoded};

    ghost Value = { CProgram };

    ghost coded = { the_program.the_row.coded };

    ghost view = { λ m. m.program };

    ghost invariant = { λ m. IsDecoded m.program.items m.functions m.main };
}

// The stacks in which `main` begins.
fn boot(alloc: Global, locals: usize) -> Result<Stacks, RunErr>
    ensures slots { IfOk result (λ s. s.slots.items ≡ replicate locals 0) }
    ensures frames { IfOk result (λ s. s.frames ≡ []) }
    ensures cause { OnErr result (result ≡ Err RunErr.Memory) }
{
    let mut slots = Vec::new(alloc);
    if !push_zeros(&mut slots, locals) {
        return Err(RunErr::Memory);
    }
    Ok(Stacks {
        slots,
        frames: Stack::new(alloc),
    })
}

impl Machine {
    /// A machine for a checked program; a refused one is dropped.
    /// A `NotRunnable` comes exactly for one that isn't runnable, and a `Memory` only for want of memory.
    pub fn new(alloc: Global, p: Checked) -> Result<Machine, LoadErr>
        ensures ok { IfOk result (λ m. (m ≡ p) × IsRunnable (items_of p.items)) }
        ensures refused { IsErrOf result LoadErr.NotRunnable → is_runnable (items_of p.items) ≡ false }
        ensures found { is_runnable (items_of p.items) ≡ false → IsErrOf result LoadErr.NotRunnable }
    {
        let items = p.program().items.as_slice();
        if !is_runnable(items) {
            return Err(LoadErr::NotRunnable);
        }
        let (functions, main) = decode(alloc, items)?;
        Ok(Machine {
            alloc,
            program: p,
            functions,
            main,
        })
    }

    /// Runs the program. After any run, also a failed one, the machine is as before.
    /// A `WriteFault` comes only where the sink failed, and `Memory` for want of memory.
    pub fn run<K: Sink>(
        &mut self,
        turns: u64,
        input: &[u8],
        args: &TextList,
        out: &mut K,
    ) -> Result<End, RunErr>
        ensures same { self.new ≡ self.old }
        // The output, where the sink tells what is written, and a part of it after an error.
        ensures told { Ran (K.written out.old) (K.written out.new) (cm (items_of self.old.items) input.now args.now turns) result }
        ensures end { IfOk result (λ e. e ≡ (cm (items_of self.old.items) input.now args.now turns).end) }
        ensures later { K.faults out.old ≤ K.faults out.new }
        ensures fault { IsErrOf result RunErr.WriteFault → Rose (K.faults out.old) (K.faults out.new) }
    {
        let funs = self.functions.as_slice();
        let mut stacks = boot(self.alloc, function_at(funs, self.main).locals)?;
        let mut regs = Regs {
            fun: self.main,
            pc: FIRST,
            base: 0,
            turns,
        };
        let mut acc = Acc {
            value: 0,
            end: End::Spent,
        };
        'steps: loop {
            let instr = fetch(funs, &mut regs);
            match step(
                self.alloc,
                instr,
                funs,
                &mut regs,
                &mut acc,
                &mut stacks,
                out,
            ) {
                Flow::Going => {}
                Flow::Over => return Ok(acc.end),
                Flow::WriteFault => return Err(RunErr::WriteFault),
                Flow::Memory => return Err(RunErr::Memory),
            }
        }
    }
}
