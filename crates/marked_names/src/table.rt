ghost use Rattle.std.specs.Prelude.{◌≡◌, [], ◌∷◌, ◌++◌, length, not, if◌then◌else◌, IfOk, OnErr};
ghost use Rattle.marked_names.specs.MarkedNames.{has_marked, marked_place};

use crate::key::key;
use name_table::NameTable;
use scheme_data::OutOfMemory;
use std::alloc::Global;
use std::marker::Model;

/// Distinct names with marks in order of first sight.
#[derive(Drop)]
pub struct MarkedNames {
    alloc: Global,
    keys: NameTable,
}

impl Model for MarkedNames {
    ghost use Rattle.std.specs.Prelude.{ℕ, List, map};
    ghost use Rattle.std.specs.Coded.{coded_list, coded_ℕ, coded×};
    ghost use Rattle.marked_names.specs.Keys.{of_key, AreKeys};

    ghost Value = { List (List ℕ × ℕ) };

    ghost coded = { coded_list (coded× (coded_list coded_ℕ) coded_ℕ) };

    ghost view = { λ t. map of_key t.keys };

    ghost invariant = { λ t. AreKeys t.keys };
}

impl MarkedNames {
    /// The empty table.
    pub fn new(alloc: Global) -> MarkedNames
        ensures { result ≡ [] }
    {
        MarkedNames {
            alloc,
            keys: NameTable::new(alloc),
        }
    }

    /// How many names it has.
    pub fn len(&self) -> usize
        ensures { result ≡ length self.now }
    {
        self.keys.len()
    }

    /// The place of a name with a mark, counted from 0.
    pub fn position(&self, name: &[u8], mark: u32) -> Result<Option<usize>, OutOfMemory>
        ensures { IfOk result (λ place. place ≡ marked_place name.now mark self.now) }
    {
        let key = key(self.alloc, name, mark)?;
        Ok(self.keys.position(key.as_bytes()))
    }

    /// Puts a name with a mark at the end, where it isn't there yet, and says whether it did. Without memory for it nothing changes.
    pub fn insert(&mut self, name: &[u8], mark: u32) -> Result<bool, OutOfMemory>
        ensures added { IfOk result (λ added. added ≡ not (has_marked self.old name.now mark)) }
        ensures ok { IfOk result (λ added. self.new ≡ (if added then self.old ++ (name.now, mark) ∷ [] else self.old)) }
        ensures err { OnErr result (self.new ≡ self.old) }
    {
        let key = key(self.alloc, name, mark)?;
        self.keys.insert(key.as_bytes())
    }
}
