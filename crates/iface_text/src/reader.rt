// An interface's text, read line by line.
ghost use Rattle.std.specs.Prelude.{◌≡◌, IfOk};
ghost use Rattle.iface_text.specs.Reading.{start, step, step_version, step_module, step_rows, Takes, answer_of, AnswersAs, at_end, refused_at};

use crate::interface::{Iface, IfaceErr, Row};
use crate::lines::{cut_at, name_of_module_line, read_row};
use name_table::NameTable;
use scheme_data::{List, OutOfMemory, Place, Text};
use std::alloc::Global;

/// Which line comes next.
#[derive(Clone, Copy)]
enum Stage {
    Version,
    Module,
    /// A row or `end`.
    Rows,
    /// None: the last was `end`.
    Done,
}

/// What the lines so far have told.
#[derive(Drop)]
struct Reader {
    stage: Stage,
    module_name: Text,
    rows: List<Row>,
    names: NameTable,
}

impl Reader {
    fn new(alloc: Global) -> Reader
        ensures { result ≡ start }
    {
        Reader {
            stage: Stage::Version,
            module_name: Text::new(alloc),
            rows: List::new(alloc),
            names: NameTable::new(alloc),
        }
    }

    /// Takes a line, and says whether an interface could have it there.
    #[tactic(auto, unfolding(crate::specs::Reading::step))]
    fn take(&mut self, alloc: Global, line: &[u8]) -> Result<bool, OutOfMemory>
        ensures { IfOk result (λ taken. Takes taken (step self.old line.now) self.new) }
    {
        match self.stage {
            Stage::Version => Ok(self.take_version(line)),
            Stage::Module => self.take_module(alloc, line),
            Stage::Rows => self.take_row(alloc, line),
            Stage::Done => Ok(false),
        }
    }

    fn take_version(&mut self, line: &[u8]) -> bool
        ensures { Takes result (step_version self.old line.now) self.new }
    {
        if line != b"bigloo-interface 1".as_slice() {
            return false;
        }
        self.stage = Stage::Module;
        true
    }

    fn take_module(&mut self, alloc: Global, line: &[u8]) -> Result<bool, OutOfMemory>
        ensures { IfOk result (λ taken. Takes taken (step_module self.old line.now) self.new) }
    {
        let Some(name) = name_of_module_line(line) else {
            return Ok(false);
        };
        self.module_name = Text::from_bytes(alloc, name)?;
        self.stage = Stage::Rows;
        Ok(true)
    }

    fn take_row(&mut self, alloc: Global, line: &[u8]) -> Result<bool, OutOfMemory>
        ensures { IfOk result (λ taken. Takes taken (step_rows self.old line.now) self.new) }
    {
        if line == b"end".as_slice() {
            self.stage = Stage::Done;
            return Ok(true);
        }
        let Some(row) = read_row(alloc, line)? else {
            return Ok(false);
        };
        if !self.names.insert(row.name.as_bytes())? {
            return Ok(false);
        }
        self.rows.push(row)?;
        Ok(true)
    }

    /// The interface of the lines, where the last was `end` and nothing follows.
    fn finish(self, rest: &[u8], line: u32) -> Result<Iface, IfaceErr>
        ensures { AnswersAs result (at_end self line rest.now) }
    {
        if !rest.is_empty() {
            return Err(not_interface(line));
        }
        match self.stage {
            Stage::Done => Ok(Iface {
                module_name: self.module_name,
                rows: self.rows,
            }),
            Stage::Version | Stage::Module | Stage::Rows => Err(not_interface(line)),
        }
    }
}

fn not_interface(line: u32) -> IfaceErr
    ensures { result ≡ refused_at line }
{
    IfaceErr::NotInterface(Place { line, column: 1 })
}

/// The interface of the text.
pub fn read(alloc: Global, bytes: &[u8]) -> Result<Iface, IfaceErr>
    ensures { AnswersAs result (answer_of bytes.now) }
{
    let mut reader = Reader::new(alloc);
    let mut rest = bytes;
    let mut line = 1u32;
    while let Some(cut) = cut_at(rest, b'\n') {
        if !reader.take(alloc, cut.before)? {
            return Err(not_interface(line));
        }
        rest = cut.after;
        line = line.saturating_add(1);
    }
    reader.finish(rest, line)
}
