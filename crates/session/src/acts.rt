// What each command does with what was read. A further command adds a function and an arm.
ghost use Rattle.std.specs.Prelude.{◌≡◌, ◌≤◌, ◌<◌, ◌∷◌, List, length, IfOk, IsErrOf};
ghost use Rattle.base_io.specs.Causes.{Rose};
ghost use Rattle.base_io.specs.Contents.{Bytes};
ghost use Rattle.session.specs.Works.{Held, AllStand, bytes_of, reads_of};
ghost use Rattle.session.specs.Done.{make_err_of, make_err_of_link, ExportDid, CompileDid, LinkDid, Performs};

use crate::answer::{Effect, Refusal};
use crate::errors::{MakeErr, WorkErr};
use crate::running::run;
use base_io::Sink;
use commands::{Command, copy_all};
use linker::{LinkErr, link};
use scheme_data::{OutOfMemory, Text, TextList};
use std::alloc::Global;
use unit_compile::{UnitErr, compile_unit, make_iface};

/// A list of one text and then others.
fn text_and(alloc: Global, first: &Text, others: &[Text]) -> Result<TextList, OutOfMemory>
    ensures { IfOk result (λ list. list ≡ first.now ∷ others.now) }
{
    let mut list = TextList::new(alloc);
    list.push(first.copy(alloc)?)?;
    for other in others {
        list.push(other.copy(alloc)?)?;
    }
    Ok(list)
}

/// The names that a command reads, in order.
pub fn names_read(alloc: Global, command: &Command) -> Result<TextList, OutOfMemory>
    ensures { IfOk result (λ names. names ≡ reads_of command.now) }
{
    match command {
        Command::Blank => Ok(TextList::new(alloc)),
        Command::Iface(source, _) => text_and(alloc, source, &[]),
        Command::Compile(source, _, ifaces) => text_and(alloc, source, ifaces.as_slice()),
        Command::Link(_, objects) => copy_all(alloc, objects.as_slice()),
        Command::Run(program, _, _) => text_and(alloc, program, &[]),
    }
}

/// Why nothing is made of a source.
fn refused_source(refused: UnitErr) -> MakeErr
    ensures { result ≡ make_err_of refused }
{
    match refused {
        UnitErr::Syntax(at) => MakeErr::Refused(Refusal::Syntax(at)),
        UnitErr::Limit(kind) => MakeErr::Refused(Refusal::Limit(kind)),
        UnitErr::Header(at) => MakeErr::Refused(Refusal::Header(at)),
        UnitErr::Duplicate(name) => MakeErr::Refused(Refusal::Duplicate(name)),
        UnitErr::BadRules(at) => MakeErr::Refused(Refusal::BadRules(at)),
        UnitErr::NoRule(at) => MakeErr::Refused(Refusal::NoRule(at)),
        UnitErr::Form(at) => MakeErr::Refused(Refusal::Form(at)),
        UnitErr::NotBuilt => MakeErr::Refused(Refusal::NotBuilt),
        UnitErr::Memory => MakeErr::Memory,
    }
}

/// Why nothing is made of objects.
fn refused_link(refused: LinkErr) -> MakeErr
    ensures { result ≡ make_err_of_link refused }
{
    match refused {
        LinkErr::MissingModule(number, module_name) => {
            MakeErr::Refused(Refusal::MissingModule(number, module_name))
        }
        LinkErr::MissingName(number, module_name, name) => {
            MakeErr::Refused(Refusal::MissingName(number, module_name, name))
        }
        LinkErr::NotBuilt => MakeErr::Refused(Refusal::NotBuilt),
        LinkErr::Memory => MakeErr::Memory,
    }
}

fn export(alloc: Global, source: &[u8]) -> Result<Text, MakeErr>
    ensures told { ExportDid source.now result }
{
    make_iface(alloc, source).map_err(refused_source)
}

fn compile(alloc: Global, source: &[u8], ifaces: &TextList) -> Result<Text, MakeErr>
    ensures told { CompileDid source.now ifaces.now result }
{
    compile_unit(alloc, source, ifaces).map_err(refused_source)
}

fn join(alloc: Global, objects: &TextList) -> Result<Text, MakeErr>
    ensures told { LinkDid objects.now result }
{
    link(alloc, objects).map_err(refused_link)
}

/// Does a command with what was read for it.
pub fn perform<K: Sink>(
    alloc: Global,
    command: &Command,
    texts: &TextList,
    out: &mut K,
) -> Result<Effect, WorkErr>
    requires { length texts.now ≡ length (reads_of command.now) }
    ensures told { (hs : List Held) → bytes_of hs ≡ texts.now → AllStand hs → Performs command.now hs (K.written out.old) (K.written out.new) result }
    ensures later { K.faults out.old ≤ K.faults out.new }
    ensures fault { IsErrOf result WorkErr.WriteFault → Rose (K.faults out.old) (K.faults out.new) }
{
    match command {
        Command::Blank => Ok(Effect::Nothing),
        Command::Iface(_, name) => {
            let interface = export(alloc, texts.as_slice()[0].as_bytes())?;
            Ok(Effect::Wrote(name.copy(alloc)?, interface))
        }
        Command::Compile(_, name, _) => {
            let ifaces = copy_all(alloc, &texts.as_slice()[1..])?;
            let object = compile(alloc, texts.as_slice()[0].as_bytes(), &ifaces)?;
            Ok(Effect::Wrote(name.copy(alloc)?, object))
        }
        Command::Link(name, _) => {
            let program = join(alloc, texts)?;
            Ok(Effect::Wrote(name.copy(alloc)?, program))
        }
        Command::Run(program, turns, args) => {
            let words = text_and(alloc, program, args.as_slice())?;
            let end = run(alloc, texts.as_slice()[0].as_bytes(), *turns, &words, out)?;
            Ok(Effect::Ran(end))
        }
    }
}
