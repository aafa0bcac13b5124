ghost use Rattle.std.specs.Prelude.{◌≡◌, [], ◌∷◌, ◌++◌, not, if◌then◌else◌, IfOk};
ghost use Rattle.c_meaning.specs.Plain.{variable_named};
ghost use Rattle.c_meaning.specs.Breaches.{type_of};
ghost use Rattle.c_check.specs.Variables.{has_variable};

use crate::named::Named;
use c_tree::{CTy, CVar};
use scheme_data::OutOfMemory;
use std::alloc::Global;
use std::marker::Model;

/// Variables with distinct names, each found by its name.
#[derive(Drop)]
pub struct Variables {
    types: Named<CTy>,
}

impl Model for Variables {
    ghost use Rattle.std.specs.Prelude.{List};
    ghost use Rattle.std.specs.Coded.{coded_list};
    ghost use Rattle.c_tree.specs.declared.tree.CVar.{CVar};
    ghost use Rattle.c_tree.specs.contracts.tree.CVar as the_variable;
    ghost use Rattle.c_check.specs.Entries.{variables_of_entries};

    ghost Value = { List CVar };

    ghost coded = { coded_list the_variable.the_row.coded };

    ghost view = { λ v. variables_of_entries v.types };
}

impl Variables {
    /// No variables.
    pub fn new(alloc: Global) -> Variables
        ensures { result ≡ [] }
    {
        Variables {
            types: Named::new(alloc),
        }
    }

    /// The type of a name.
    pub fn type_of(&self, name: &[u8]) -> Option<CTy>
        ensures { result ≡ type_of (variable_named self.now name.now) }
    {
        self.types.get(name).copied()
    }

    /// Adds a variable where its name is new, and says whether it is.
    pub fn add(&mut self, var: &CVar) -> Result<bool, OutOfMemory>
        ensures added { IfOk result (λ added. added ≡ not (has_variable self.old var.now.name)) }
        ensures ok { IfOk result (λ added. self.new ≡ (if added then self.old ++ var.now ∷ [] else self.old)) }
    {
        let name = var.name.as_bytes();
        if self.types.contains(name) {
            return Ok(false);
        }
        self.types.add(name, var.ty)?;
        Ok(true)
    }
}
