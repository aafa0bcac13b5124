ghost use Rattle.std.specs.Prelude.{◌≡◌, OnOk, OnErr};
ghost use Rattle.std.specs.Option.{option_copied};
ghost use Rattle.std.specs.FinMap as map;

use scheme_data::{OutOfMemory, Text};
use std::alloc::Global;
use std::collections::BTreeMap;
use std::marker::Model;

/// One content a name, in the order of the names.
#[derive(Drop)]
pub struct Table {
    alloc: Global,
    entries: BTreeMap<Vec<u8>, Text>,
}

impl Model for Table {
    ghost use Rattle.std.specs.FinMap as map;
    ghost use Rattle.std.specs.Coded.{coded_list, coded_ℕ};
    ghost use Rattle.base_io.specs.Contents.{Contents};
    ghost use Rattle.scheme_data.specs.Names.{named};

    ghost Value = { Contents };

    ghost coded = { map.code (coded_list coded_ℕ) (coded_list coded_ℕ) };

    ghost view = { λ t. map.from_entries (named t.entries.entries) };
}

impl Table {
    /// The empty table.
    pub fn new(alloc: Global) -> Table
        ensures { result ≡ map.empty }
    {
        Table {
            alloc,
            entries: BTreeMap::new(alloc),
        }
    }

    /// The content of a name.
    pub fn get(&self, name: &[u8]) -> Option<&Text>
        ensures { option_copied result ≡ map.get self.now name.now }
    {
        self.entries.get(name)
    }

    /// Sets the content of a name.
    pub fn set(&mut self, name: &[u8], content: Text) -> Result<(), OutOfMemory>
        ensures ok { OnOk result (self.new ≡ map.insert self.old name.now content) }
        ensures err { OnErr result (self.new ≡ self.old) }
    {
        let key = Vec::from_slice(self.alloc, name)?;
        self.entries.insert(key, content)?;
        Ok(())
    }
}
