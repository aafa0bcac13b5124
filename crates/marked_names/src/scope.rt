ghost use Rattle.std.specs.Prelude.{◌≡◌, ◌≤◌, [], ◌∷◌, length, drop, IfOk, OnOk, OnErr};
ghost use Rattle.marked_names.specs.MarkedNames.{has_marked};

use crate::counts::Counts;
use crate::key::key;
use scheme_data::{OutOfMemory, Text};
use std::alloc::Global;
use std::marker::Model;

/// The names with marks that are bound around a place, the innermost first. How often each of them is bound
/// is counted, so that no look-up walks over all of them.
#[derive(Drop)]
pub struct Scope {
    alloc: Global,
    bound: Vec<Text>,
    counts: Counts,
}

impl Model for Scope {
    ghost use Rattle.std.specs.Prelude.{ℕ, List, map, reverse};
    ghost use Rattle.std.specs.Coded.{coded_list, coded_ℕ, coded×};
    ghost use Rattle.marked_names.specs.Counted.{IsCounted};
    ghost use Rattle.marked_names.specs.Keys.{of_key};

    ghost Value = { List (List ℕ × ℕ) };

    ghost coded = { coded_list (coded× (coded_list coded_ℕ) coded_ℕ) };

    ghost view = { λ s. reverse (map of_key s.bound.items) };

    ghost invariant = { λ s. IsCounted s.bound.items s.counts };
}

impl Scope {
    /// The scope in which nothing is bound.
    pub fn new(alloc: Global) -> Scope
        ensures { result ≡ [] }
    {
        Scope {
            alloc,
            bound: Vec::new(alloc),
            counts: Counts::new(alloc),
        }
    }

    /// How many names are bound.
    pub fn len(&self) -> usize
        ensures { result ≡ length self.now }
    {
        self.bound.len()
    }

    /// Binds a name within the others. Without memory for it nothing changes.
    pub fn enter(&mut self, name: &[u8], mark: u32) -> Result<(), OutOfMemory>
        ensures ok { OnOk result (self.new ≡ (name.now, mark) ∷ self.old) }
        ensures err { OnErr result (self.new ≡ self.old) }
    {
        let key = key(self.alloc, name, mark)?;
        self.bound.reserve(1)?;
        self.counts.add(key.as_bytes())?;
        self.bound.push_reserved(key);
        Ok(())
    }

    /// Lets the innermost name go.
    fn leave_one(&mut self)
        requires { 1 ≤ length self.old }
        ensures { self.new ≡ drop 1 self.old }
    {
        let Some(key) = self.bound.pop() else {
            return;
        };
        self.counts.remove(key.as_bytes());
    }

    /// Lets the innermost names go, so many of them.
    pub fn leave(&mut self, count: usize)
        requires { count ≤ length self.old }
        ensures { self.new ≡ drop count self.old }
    {
        for _ in 0..count {
            self.leave_one();
        }
    }

    /// Whether a name with a mark is bound.
    pub fn binds(&self, name: &[u8], mark: u32) -> Result<bool, OutOfMemory>
        ensures { IfOk result (λ bound. bound ≡ has_marked self.now name.now mark) }
    {
        let key = key(self.alloc, name, mark)?;
        Ok(self.counts.of(key.as_bytes()) > 0)
    }
}
