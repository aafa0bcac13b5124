// The lines of a script, one after another, and the top call.
ghost use Rattle.std.specs.Prelude.{◌≡◌, ℕ, ◌⊎◌, ◌∷◌, [], map, Some, None, IsErrOf};
ghost use Rattle.base_io.specs.Causes.{Rose};
ghost use Rattle.base_io.specs.Contents.{Bytes, Contents};
ghost use Rattle.commands.specs.Commands.{parsed, request_of};
ghost use Rattle.commands.specs.declared.command.Request.TheVariants.{Do};
ghost use Rattle.session.specs.Scripts.{ScriptDid, NamedDid, ProgramDid, answer_of_line, answer_of_lines};

use crate::answer::{Answer, Refusal, answer_for, answer_for_stop};
use crate::errors::{Halt, Stop};
use crate::line::do_line;
use crate::outside::read_one;
use base_io::{Ends, Files, Sink, Source};
use commands::{Command, Request, parse_line, parts, request_in};
use scheme_data::{LimitKind, Text};
use std::alloc::Global;

const LONGEST: usize = 1048576;

/// Does lines up to the first that stops.
fn do_lines<F: Files, K: Sink>(
    alloc: Global,
    lines: &[Text],
    files: &mut F,
    out: &mut K,
) -> Result<Ends, Stop>
    ensures told { (m : Contents) (source base : Bytes) → F.contents files.old ≡ Some m → K.written out.old ≡ Some base
        → ScriptDid (map parsed lines.now) m source base (answer_of_lines result) (F.contents files.new) (Some source) (K.written out.new) }
    ensures file_fault { (k : ℕ) (n : Bytes) → IsErrOf result (Stop.Halted k (Halt.FileFault n)) → Rose (F.faults files.old) (F.faults files.new) }
    ensures write_fault { (k : ℕ) → IsErrOf result (Stop.Halted k Halt.WriteFault) → Rose (K.faults out.old) (K.faults out.new) }
{
    let mut ends = Ends::new(alloc);
    let mut number = 0u64;
    for line in lines {
        number += 1;
        match parse_line(alloc, line.as_bytes()) {
            Err(_) => return Err(Stop::Halted(number, Halt::Memory)),
            Ok(None) => return Err(Stop::BadLine(number)),
            Ok(Some(command)) => match do_line(alloc, &command, files, out, &mut ends) {
                Ok(()) => {}
                Err(halt) => return Err(Stop::Halted(number, halt)),
            },
        }
    }
    Ok(ends)
}

/// Does one command, as line 1.
fn do_one<F: Files, K: Sink>(
    alloc: Global,
    command: &Command,
    files: &mut F,
    out: &mut K,
) -> Result<Ends, Halt>
    ensures told { (m : Contents) (source base : Bytes) → F.contents files.old ≡ Some m → K.written out.old ≡ Some base
        → ScriptDid (Some command.now ∷ []) m source base (answer_of_line result) (F.contents files.new) (Some source) (K.written out.new) }
    ensures file_fault { (n : Bytes) → IsErrOf result (Halt.FileFault n) → Rose (F.faults files.old) (F.faults files.new) }
    ensures write_fault { IsErrOf result Halt.WriteFault → Rose (K.faults out.old) (K.faults out.new) }
{
    let mut ends = Ends::new(alloc);
    do_line(alloc, command, files, out, &mut ends)?;
    Ok(ends)
}

/// Does the script of a name.
fn do_script<F: Files, K: Sink>(
    alloc: Global,
    name: &Text,
    files: &mut F,
    out: &mut K,
) -> Result<Ends, Stop>
    ensures told { (m : Contents) (source base : Bytes) → F.contents files.old ≡ Some m → K.written out.old ≡ Some base
        → NamedDid name.now m source base (answer_of_lines result) (F.contents files.new) (Some source) (K.written out.new) }
    ensures file_fault { (k : ℕ) (n : Bytes) → IsErrOf result (Stop.Halted k (Halt.FileFault n)) → Rose (F.faults files.old) (F.faults files.new) }
    ensures write_fault { (k : ℕ) → IsErrOf result (Stop.Halted k Halt.WriteFault) → Rose (K.faults out.old) (K.faults out.new) }
{
    let script = read_one(alloc, files, name)?;
    if script.as_bytes().len() > LONGEST {
        let refusal = Refusal::Limit(LimitKind::Bytes);
        return Err(Stop::Halted(0, Halt::Refused(refusal)));
    }
    let lines = parts(alloc, script.as_bytes(), b'\n')?;
    do_lines(alloc, lines.as_slice(), files, out)
}

/// Does what the words ask for: the words that come after the program's name.
pub fn bglc<F: Files, S: Source, K: Sink>(
    alloc: Global,
    words: &[Text],
    files: &mut F,
    input: &mut S,
    out: &mut K,
) -> Answer
    // What it did, where files, source and sink tell what they hold.
    ensures told { (m : Contents) (source base : Bytes) → F.contents files.old ≡ Some m → S.left input.old ≡ Some source → K.written out.old ≡ Some base
        → ProgramDid words.now m source base result (F.contents files.new) (S.left input.new) (K.written out.new) }
    // No line reads the input yet.
    ensures unread { input.new ≡ input.old }
    ensures usage { result ≡ Answer.Usage → request_of words.now ≡ None }
    ensures no_command { request_of words.now ≡ None → (result ≡ Answer.Usage) ⊎ (result ≡ Answer.Memory) }
    ensures bad_line { (k : ℕ) → result ≡ Answer.BadLine k → (name : Bytes) × (request_of words.now ≡ Some (Do name)) }
    ensures file_fault { (n : Bytes) → result ≡ Answer.FileFault n → Rose (F.faults files.old) (F.faults files.new) }
    ensures read_fault { result ≡ Answer.ReadFault → ⊥ }
    ensures long_input { result ≡ Answer.InputLong → ⊥ }
    ensures write_fault { result ≡ Answer.WriteFault → Rose (K.faults out.old) (K.faults out.new) }
{
    match request_in(alloc, words) {
        Err(_) => Answer::Memory,
        Ok(None) => Answer::Usage,
        Ok(Some(Request::Line(command))) => match do_one(alloc, &command, files, out) {
            Ok(ends) => Answer::Done(ends),
            Err(halt) => answer_for(halt, 1),
        },
        Ok(Some(Request::Do(name))) => match do_script(alloc, &name, files, out) {
            Ok(ends) => Answer::Done(ends),
            Err(stop) => answer_for_stop(stop),
        },
        Ok(Some(Request::Sample(_, _, _, _))) => Answer::Refused(1, Refusal::NotBuilt),
    }
}
