ghost use Rattle.std.specs.Prelude.{◌≡◌, ◌+◌, ◌≤◌, ℕ, List, cond, length, Some, IfOk, OnOk, OnErr};
ghost use Rattle.name_table.specs.Names.{place_of};
ghost use Rattle.scheme_data.specs.Names.{is_same};
ghost use Rattle.marked_names.specs.Keys.{count_of};

use name_table::NameTable;
use scheme_data::OutOfMemory;
use std::alloc::Global;

/// How often each of some keys is held. A key that is held no more stays with the count 0.
#[derive(Drop)]
pub(crate) struct Counts {
    pub keys: NameTable,
    pub counts: Vec<usize>,
    pub ghost as_long: { length counts.items ≡ length keys },
}

impl Counts {
    /// No key is held.
    pub fn new(alloc: Global) -> Counts
        ensures { (k : List ℕ) → count_of result.keys result.counts.items k ≡ 0 }
    {
        Counts {
            keys: NameTable::new(alloc),
            counts: Vec::new(alloc),
        }
    }

    /// How often a key is held.
    pub fn of(&self, key: &[u8]) -> usize
        ensures { result ≡ count_of self.now.keys self.now.counts.items key.now }
    {
        match self.keys.position(key) {
            Some(place) => self.counts[place],
            None => 0,
        }
    }

    /// The place of a key, which is put there with the count 0 where it is missing.
    fn place(&mut self, key: &[u8]) -> Result<usize, OutOfMemory>
        ensures place { IfOk result (λ p. place_of key.now self.new.keys ≡ Some p) }
        ensures same { (k : List ℕ) → count_of self.new.keys self.new.counts.items k ≡ count_of self.old.keys self.old.counts.items k }
    {
        if let Some(place) = self.keys.position(key) {
            return Ok(place);
        }
        self.counts.reserve(1)?;
        self.keys.insert(key)?;
        let place = self.counts.len();
        self.counts.push_reserved(0);
        Ok(place)
    }

    /// Holds a key once more. Without memory for it, each is held as often as before.
    pub fn add(&mut self, key: &[u8]) -> Result<(), OutOfMemory>
        ensures ok { (k : List ℕ) → OnOk result (count_of self.new.keys self.new.counts.items k ≡ cond (is_same k key.now) 1 0 + count_of self.old.keys self.old.counts.items k) }
        ensures err { (k : List ℕ) → OnErr result (count_of self.new.keys self.new.counts.items k ≡ count_of self.old.keys self.old.counts.items k) }
    {
        let place = self.place(key)?;
        let Some(count) = self.counts[place].checked_add(1) else {
            return Err(OutOfMemory);
        };
        self.counts[place] = count;
        Ok(())
    }

    /// Holds a key once less.
    pub fn remove(&mut self, key: &[u8])
        ensures { (k : List ℕ) → 1 ≤ count_of self.old.keys self.old.counts.items key.now → count_of self.old.keys self.old.counts.items k ≡ cond (is_same k key.now) 1 0 + count_of self.new.keys self.new.counts.items k }
    {
        if let Some(place) = self.keys.position(key) {
            self.counts[place] = self.counts[place].saturating_sub(1);
        }
    }
}
