ghost use Rattle.std.specs.Prelude.{◌≡◌, ℕ, ◌≤◌, ◌↔◌, IsErrOf, OnOk, OnErr, Contains};
ghost use Rattle.std.specs.Option.{option_copied};
ghost use Rattle.std.specs.FinMap as map;
ghost use Rattle.base_io.specs.Causes.{Rose};
ghost use Rattle.base_io.specs.Contents.{Contents, Reads, Writes};
ghost use Rattle.base_io.specs.Memory.{next, file_faults};

use crate::counts::Counts;
use crate::table::Table;
use crate::{FileErr, Files, Found};
use scheme_data::{CallList, OutOfMemory, Text};
use std::alloc::Global;
use std::marker::Model;

/// Files in memory, which fail exactly at the listed calls, counted from 1 over both of their methods.
#[derive(Drop)]
pub struct MemFiles {
    alloc: Global,
    table: Table,
    counts: Counts,
}

impl Model for MemFiles {
    ghost use Rattle.base_io.specs.Memory.{FilesState, coded_files};

    ghost Value = { FilesState };

    ghost coded = { coded_files };

    ghost view = { λ f. record { contents = f.table; calls = f.counts.calls; fails = f.counts.fails; faults = f.counts.faults } };
}

impl MemFiles {
    /// No files, before the first call.
    pub fn new(alloc: Global, fails: CallList) -> MemFiles
        ensures { result ≡ record { contents = map.empty; calls = 0; fails = fails; faults = 0 } }
    {
        MemFiles {
            alloc,
            table: Table::new(alloc),
            counts: Counts::new(fails),
        }
    }

    /// Adds a content, or replaces the one that the name had. This is no call that is counted.
    /// An `OutOfMemory` comes only for want of memory, and changes nothing.
    pub fn place(&mut self, name: Text, content: Text) -> Result<(), OutOfMemory>
        ensures ok { OnOk result (self.new ≡ record self.old { contents = map.insert self.old.contents name content }) }
        ensures err { OnErr result (self.new ≡ self.old) }
    {
        self.table.set(name.as_bytes(), content)
    }

    /// What a name has; none where it isn't there.
    pub fn content(&self, name: &Text) -> Option<&Text>
        ensures { option_copied result ≡ map.get self.now.contents name.now }
    {
        self.table.get(name.as_bytes())
    }
}

impl Files for MemFiles {
    ghost use Rattle.std.specs.Prelude.{Some};

    ghost contents = { λ f. Some f.contents };

    ghost faults = { λ f. f.faults };

    fn read(&mut self, name: &Text, into: &mut Text) -> Result<Found, FileErr>
        ensures reads { Reads (Some self.old.contents) name.now into.new result }
        ensures same { self.new.contents ≡ self.old.contents }
        ensures later { self.old.faults ≤ self.new.faults }
        ensures failed { IsErrOf result FileErr.Failed → Rose self.old.faults self.new.faults }
        ensures listed { IsErrOf result FileErr.Failed ↔ Contains self.old.fails (next self.old.calls) }
        ensures calls { self.new.calls ≡ next self.old.calls }
        ensures fails { self.new.fails ≡ self.old.fails }
        ensures faults { self.new.faults ≡ file_faults result self.old.faults }
    {
        if self.counts.fails_now() {
            return Err(FileErr::Failed);
        }
        match self.content(name) {
            None => Ok(Found::No),
            Some(content) => match content.copy(self.alloc) {
                Ok(copy) => {
                    *into = copy;
                    Ok(Found::Yes)
                }
                Err(OutOfMemory) => Err(FileErr::Memory),
            },
        }
    }

    fn write(&mut self, name: &Text, bytes: &[u8]) -> Result<(), FileErr>
        ensures writes { Writes (Some self.old.contents) (Some self.new.contents) name.now bytes.now result }
        ensures kept { OnErr result (self.new.contents ≡ self.old.contents) }
        ensures later { self.old.faults ≤ self.new.faults }
        ensures failed { IsErrOf result FileErr.Failed → Rose self.old.faults self.new.faults }
        ensures listed { IsErrOf result FileErr.Failed ↔ Contains self.old.fails (next self.old.calls) }
        ensures calls { self.new.calls ≡ next self.old.calls }
        ensures fails { self.new.fails ≡ self.old.fails }
        ensures faults { self.new.faults ≡ file_faults result self.old.faults }
    {
        if self.counts.fails_now() {
            return Err(FileErr::Failed);
        }
        let Ok(content) = Text::from_bytes(self.alloc, bytes) else {
            return Err(FileErr::Memory);
        };
        match self.table.set(name.as_bytes(), content) {
            Ok(()) => Ok(()),
            Err(OutOfMemory) => Err(FileErr::Memory),
        }
    }
}
