ghost use Rattle.std.specs.Prelude.{◌≡◌, [], ◌∷◌, ◌++◌, false, option_copied, slice_get, OnOk};
ghost use Rattle.std.specs.Map.{lookup};
ghost use Rattle.scheme_data.specs.Names.{is_same};
ghost use Rattle.c_check.specs.Keys.{has_key, IsSet};

use crate::places::Places;
use scheme_data::OutOfMemory;
use std::alloc::Global;
use std::marker::Model;

/// Values under distinct names, in order of first sight.
#[derive(Drop)]
pub struct Named<T> {
    names: Places,
    // each at the place of its name
    values: Vec<T>,
}

impl<T> Model for Named<T> {
    ghost use Rattle.std.specs.Prelude.{◌≡◌, ℕ, List, length};
    ghost use Rattle.std.specs.List.{zip};
    ghost use Rattle.std.specs.Coded.{coded_list, coded×, coded_ℕ};

    ghost Value = { List (List ℕ × T) };

    ghost coded = { coded_list (coded× (coded_list coded_ℕ) T.code) };

    ghost view = { λ n. zip n.names n.values.items };

    ghost invariant = { λ n. length n.names ≡ length n.values.items };
}

fn value_at<T>(values: &[T], place: usize) -> Option<&T>
    ensures { option_copied result ≡ slice_get values.now place }
{
    values.get(place)
}

impl<T> Named<T> {
    /// No values.
    pub fn new(alloc: Global) -> Named<T>
        ensures { result ≡ [] }
    {
        Named {
            names: Places::new(alloc),
            values: Vec::new(alloc),
        }
    }

    /// The value of a name.
    pub fn get(&self, name: &[u8]) -> Option<&T>
        ensures { option_copied result ≡ lookup (is_same name.now) self.now }
    {
        let Some(place) = self.names.position(name) else {
            return None;
        };
        value_at(&self.values, place)
    }

    /// Whether there is a value of a name.
    pub fn contains(&self, name: &[u8]) -> bool
        ensures { result ≡ has_key name.now self.now }
    {
        self.names.contains(name)
    }
}

impl<T: Drop> Named<T> {
    /// Adds a value under a new name.
    pub fn add(&mut self, name: &[u8], value: T) -> Result<(), OutOfMemory>
        requires { has_key name.now self.old ≡ false }
        ensures { OnOk result (self.new ≡ self.old ++ (name.now, value) ∷ []) }
    {
        self.values.push(value)?;
        if let Err(error) = self.names.insert(name) {
            self.values.pop();
            return Err(error);
        }
        Ok(())
    }

    /// Puts a value under a name, in place of that which it has.
    pub fn set(&mut self, name: &[u8], value: T) -> Result<(), OutOfMemory>
        ensures { OnOk result (IsSet self.old name.now value self.new) }
    {
        match self.names.position(name) {
            Some(place) => {
                self.values[place] = value;
                Ok(())
            }
            None => {
                self.add(name, value)?;
                Ok(())
            }
        }
    }
}
