ghost use Rattle.std.specs.Prelude.{◌≡◌, ◌<◌, [], ◌∷◌, ◌++◌, length, slice_get, Some, not, if◌then◌else◌, IfOk, OnErr};
ghost use Rattle.name_table.specs.Names.{has_name, place_of, AreDistinct};

use scheme_data::{OutOfMemory, Text};
use std::alloc::Global;
use std::collections::BTreeMap;
use std::collections::btree_map::Entry;
use std::marker::Model;

/// Distinct names in order of first sight, each found by its bytes. They are kept in an ordered map,
/// since whoever chooses names could choose them so that they meet in a hashed one.
#[derive(Drop)]
pub struct NameTable {
    alloc: Global,
    names: Vec<Text>,
    places: BTreeMap<Vec<u8>, usize>,
}

impl Model for NameTable {
    ghost use Rattle.std.specs.Prelude.{ℕ, List};
    ghost use Rattle.std.specs.Coded.{coded_list, coded_ℕ};
    ghost use Rattle.name_table.specs.Names.{IsIndex};

    ghost Value = { List (List ℕ) };

    ghost coded = { coded_list (coded_list coded_ℕ) };

    ghost view = { λ t. t.names.items };

    ghost invariant = { λ t. IsIndex t.names.items t.places.entries };
}

impl NameTable {
    /// The empty table.
    pub fn new(alloc: Global) -> NameTable
        ensures { result ≡ [] }
    {
        NameTable {
            alloc,
            names: Vec::new(alloc),
            places: BTreeMap::new(alloc),
        }
    }

    /// How many names it has. A name at a place is found at that place.
    pub fn len(&self) -> usize
        ensures len { result ≡ length self.now }
        ensures distinct { AreDistinct self.now }
    {
        self.names.len()
    }

    /// The name at a place.
    pub fn name(&self, place: usize) -> &[u8]
        requires { place < length self.now }
        ensures { slice_get self.now place ≡ Some result.now }
    {
        self.names[place].as_bytes()
    }

    /// The place of a name.
    pub fn position(&self, name: &[u8]) -> Option<usize>
        ensures { result ≡ place_of name.now self.now }
    {
        self.places.get(name).copied()
    }

    /// Whether it has a name.
    pub fn contains(&self, name: &[u8]) -> bool
        ensures { result ≡ has_name self.now name.now }
    {
        self.places.contains_key(name)
    }

    /// Puts a name at the end, where it isn't there yet, and says whether it did. Without memory for it nothing changes.
    pub fn insert(&mut self, name: &[u8]) -> Result<bool, OutOfMemory>
        ensures added { IfOk result (λ added. added ≡ not (has_name self.old name.now)) }
        ensures ok { IfOk result (λ added. self.new ≡ (if added then self.old ++ name.now ∷ [] else self.old)) }
        ensures err { OnErr result (self.new ≡ self.old) }
    {
        // The memory comes first, so that one look finds the name or makes its place.
        let text = Text::from_bytes(self.alloc, name)?;
        let key = Vec::from_slice(self.alloc, name)?;
        self.names.reserve(1)?;
        let Entry::Vacant(entry) = self.places.entry(key)? else {
            return Ok(false);
        };
        entry.insert(self.names.len());
        self.names.push_reserved(text);
        Ok(true)
    }
}
