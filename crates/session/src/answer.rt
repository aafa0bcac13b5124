// What the program answers, and what a line makes.
ghost use Rattle.std.specs.Prelude.{◌≡◌};
ghost use Rattle.session.specs.Scripts.{answer_of, answer_of_stop};

use crate::errors::{Halt, Stop};
use base_io::{End, Ends};
use c_meaning::BadCause;
use scheme_data::{LimitKind, Place, Text};

/// Why a line is refused. Objects of a link are numbered from 1.
#[derive(Drop, Debug)]
pub enum Refusal {
    /// It wants what isn't built: in a program, a form that the machine can't do yet.
    NotBuilt,
    /// Its source is no text of data, and is at fault here.
    Syntax(Place),
    /// Its source, or the script, has more than may be.
    Limit(LimitKind),
    /// Its first datum is no head of a module; the innermost module form, clause or item that isn't right stands here.
    Header(Place),
    /// Its head declares this name twice.
    Duplicate(Text),
    /// A `define-syntax` at its top level, which stands here, has no rules that could be used.
    BadRules(Place),
    /// A use of a macro that stands here matches none of its rules.
    NoRule(Place),
    /// A form that stands here is neither of the core grammar nor a derived one.
    Form(Place),
    /// Its program is no C text, and no text could go on here.
    NotC(Place),
    /// Its program breaks a rule of checked C, first in this function or declaration, or by the want of this name, for this cause.
    BadC(Text, BadCause),
    /// The object of this number imports a module that no object has.
    MissingModule(u64, Text),
    /// The object of this number used a name of a module, which doesn't export it now.
    MissingName(u64, Text, Text),
}

/// How the program ended. Lines are counted from 1, and words that are a line by themselves are line 1.
#[derive(Drop, Debug)]
pub enum Answer {
    /// Every line was done, and the runs ended so.
    Done(Ends),
    /// The words are no command.
    Usage,
    /// This line was reached and is no script line.
    BadLine(u64),
    /// A line that was reached, or the command itself, reads a name that isn't there.
    NoFile(Text),
    /// The files failed, at a name that the line that was reached, or the command itself, reads or writes.
    FileFault(Text),
    /// The source failed. No line reads the input yet, so this doesn't come.
    ReadFault,
    /// The input has more than 1,048,576 bytes. No line reads it yet, so this doesn't come.
    InputLong,
    /// The sink failed.
    WriteFault,
    /// The line that was reached is refused; line 0 stands for the script itself.
    Refused(u64, Refusal),
    /// Memory was wanted and not given.
    Memory,
}

/// What a line makes, beside what it writes to the sink: nothing, a file, or the end of a run.
#[derive(Drop, Debug)]
pub enum Effect {
    Nothing,
    Wrote(Text, Text),
    Ran(End),
}

/// The answer where the line of a number was not done.
pub fn answer_for(halt: Halt, number: u64) -> Answer
    ensures { result ≡ answer_of halt number }
{
    match halt {
        Halt::NoFile(name) => Answer::NoFile(name),
        Halt::FileFault(name) => Answer::FileFault(name),
        Halt::WriteFault => Answer::WriteFault,
        Halt::Refused(refusal) => Answer::Refused(number, refusal),
        Halt::Memory => Answer::Memory,
    }
}

/// The answer where a script was not done to its end.
pub fn answer_for_stop(stop: Stop) -> Answer
    ensures { result ≡ answer_of_stop stop }
{
    match stop {
        Stop::BadLine(number) => Answer::BadLine(number),
        Stop::Halted(number, halt) => answer_for(halt, number),
    }
}
