// A run of a program's text.
ghost use Rattle.std.specs.Prelude.{◌≡◌, ◌≤◌, ◌∷◌, IfOk, IsErrOf, OnErr};
ghost use Rattle.base_io.specs.Causes.{Rose};
ghost use Rattle.base_io.specs.Contents.{Bytes};
ghost use Rattle.c_tree.specs.Functions.{items_of};
ghost use Rattle.c_meaning.specs.Program.{cm};
ghost use Rattle.base_io.specs.Writing.{PutAll};
ghost use Rattle.session.specs.Works.{error_line, last_line, no_input};
ghost use Rattle.session.specs.Done.{ProgramRead, ProgramChecked, Loaded, RanTo, TextRan};

use crate::answer::Refusal;
use crate::errors::{MakeErr, WorkErr};
use base_io::{End, Failed, RunErr, Sink, put_all};
use c_check::{CheckErr, Checked, check};
use c_machine::{LoadErr, Machine};
use c_meaning::Breach;
use c_read::{CReadErr, read_c};
use c_tree::CProgram;
use scheme_data::{OutOfMemory, Text, TextList, push_decimal};
use std::alloc::Global;

fn read_program(alloc: Global, text: &[u8]) -> Result<CProgram, MakeErr>
    ensures told { ProgramRead text.now result }
{
    match read_c(alloc, text) {
        Ok(program) => Ok(program),
        Err(CReadErr::NotC(at)) => Err(MakeErr::Refused(Refusal::NotC(at))),
        Err(CReadErr::Memory) => Err(MakeErr::Memory),
    }
}

fn check_program(alloc: Global, program: CProgram) -> Result<Checked, MakeErr>
    ensures told { ProgramChecked program result }
{
    match check(alloc, program) {
        Ok(checked) => Ok(checked),
        Err(CheckErr::BadC(Breach { name, cause })) => {
            Err(MakeErr::Refused(Refusal::BadC(name, cause)))
        }
        Err(CheckErr::Memory) => Err(MakeErr::Memory),
    }
}

/// A machine for the program of a text.
fn load(alloc: Global, text: &[u8]) -> Result<Machine, MakeErr>
    ensures told { Loaded text.now result }
{
    let program = read_program(alloc, text)?;
    let checked = check_program(alloc, program)?;
    match Machine::new(alloc, checked) {
        Ok(machine) => Ok(machine),
        Err(LoadErr::NotRunnable) => Err(MakeErr::Refused(Refusal::NotBuilt)),
        Err(LoadErr::Memory) => Err(MakeErr::Memory),
    }
}

fn error_text(alloc: Global, code: u8, text: &Text) -> Result<Text, OutOfMemory>
    ensures { IfOk result (λ line. line ≡ error_line code text.now) }
{
    let mut line = Text::from_bytes(alloc, b"error ")?;
    push_decimal(&mut line, code as u64)?;
    line.push(b' ')?;
    line.extend(text.as_bytes())?;
    line.push(b'\n')?;
    Ok(line)
}

/// Writes the error line, where a run ended by an error.
fn put_last_line<K: Sink>(alloc: Global, end: &End, out: &mut K) -> Result<(), RunErr>
    ensures told { PutAll (K.written out.old) (K.written out.new) (last_line end.now) result }
    ensures later { K.faults out.old ≤ K.faults out.new }
    ensures fault { IsErrOf result RunErr.WriteFault → Rose (K.faults out.old) (K.faults out.new) }
{
    let End::Raised(code, text) = end else {
        return Ok(());
    };
    let line = error_text(alloc, *code, text)?;
    match put_all(out, line.as_bytes()) {
        Ok(()) => Ok(()),
        Err(Failed) => Err(RunErr::WriteFault),
    }
}

/// Runs the machine, and writes all that the run writes.
fn run_machine<K: Sink>(
    alloc: Global,
    machine: &mut Machine,
    turns: u64,
    args: &TextList,
    out: &mut K,
) -> Result<End, RunErr>
    ensures told { RanTo (K.written out.old) (K.written out.new) (cm (items_of machine.old.items) no_input args.now turns) result }
    ensures later { K.faults out.old ≤ K.faults out.new }
    ensures fault { IsErrOf result RunErr.WriteFault → Rose (K.faults out.old) (K.faults out.new) }
{
    let end = machine.run(turns, &[], args, out)?;
    put_last_line(alloc, &end, out)?;
    Ok(end)
}

/// Runs the program of a text on the empty input.
pub fn run<K: Sink>(
    alloc: Global,
    text: &[u8],
    turns: u64,
    args: &TextList,
    out: &mut K,
) -> Result<End, WorkErr>
    ensures told { TextRan (K.written out.old) (K.written out.new) text.now args.now turns result }
    ensures later { K.faults out.old ≤ K.faults out.new }
    ensures fault { IsErrOf result WorkErr.WriteFault → Rose (K.faults out.old) (K.faults out.new) }
{
    let mut machine = load(alloc, text)?;
    Ok(run_machine(alloc, &mut machine, turns, args, out)?)
}
