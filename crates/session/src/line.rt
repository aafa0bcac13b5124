// One line, in the same steps for each command.
ghost use Rattle.std.specs.Prelude.{◌≡◌, ◌≤◌, IsErrOf};
ghost use Rattle.base_io.specs.Causes.{Rose};
ghost use Rattle.base_io.specs.Contents.{Bytes};
ghost use Rattle.session.specs.Scripts.{State, Agrees, LineDid};
ghost use Rattle.session.specs.Steps.{Finished};

use crate::acts::{names_read, perform};
use crate::answer::Effect;
use crate::errors::{Halt, WriteErr};
use crate::outside::{read_all, write_one};
use base_io::{Ends, Files, Sink};
use commands::Command;
use std::alloc::Global;
use whole_program::law;

/// Keeps what a line made: writes its file, or notes the end of its run.
fn finish<F: Files>(
    alloc: Global,
    files: &mut F,
    ends: &mut Ends,
    effect: Effect,
) -> Result<(), WriteErr>
    ensures told { Finished (F.contents files.old) (F.contents files.new) ends.old ends.new effect result }
    ensures later { F.faults files.old ≤ F.faults files.new }
    ensures fault { (n : Bytes) → IsErrOf result (WriteErr.FileFault n) → Rose (F.faults files.old) (F.faults files.new) }
{
    match effect {
        Effect::Nothing => Ok(()),
        Effect::Wrote(name, bytes) => write_one(alloc, files, &name, &bytes),
        Effect::Ran(end) => {
            ends.push(end)?;
            Ok(())
        }
    }
}

/// Does one line: reads all its files, does its command, and then keeps what that made.
pub fn do_line<F: Files, K: Sink>(
    alloc: Global,
    command: &Command,
    files: &mut F,
    out: &mut K,
    ends: &mut Ends,
) -> Result<(), Halt>
    ensures told { (s : State) (base : Bytes) → Agrees s base (F.contents files.old) (K.written out.old) ends.old
        → LineDid command.now s result base (F.contents files.new) (K.written out.new) ends.new }
    ensures files_later { F.faults files.old ≤ F.faults files.new }
    ensures out_later { K.faults out.old ≤ K.faults out.new }
    ensures file_fault { (n : Bytes) → IsErrOf result (Halt.FileFault n) → Rose (F.faults files.old) (F.faults files.new) }
    ensures write_fault { IsErrOf result Halt.WriteFault → Rose (K.faults out.old) (K.faults out.new) }
{
    // By it a program stands for the sources of its objects.
    law();
    let names = names_read(alloc, command)?;
    let texts = read_all(alloc, files, names.as_slice())?;
    let effect = perform(alloc, command, &texts, out)?;
    finish(alloc, files, ends, effect)?;
    Ok(())
}
