ghost use Rattle.std.specs.Prelude.{◌≡◌, [], OnOk, slice_get};
ghost use Rattle.std.specs.Option.{option_copied};
ghost use Rattle.syntax_rules.specs.Views.{the_macro};
ghost use Rattle.core_forms.specs.Scope.{macro_named, with_macro};
ghost use Rattle.expansion_steps.specs.Heads.{some_macro, macros_of, macro_name};

use name_table::NameTable;
use scheme_data::OutOfMemory;
use std::alloc::Global;
use std::marker::Model;
use syntax_rules::Rules;

/// The macros of a module, each found by its name.
#[derive(Drop)]
pub struct Macros {
    names: NameTable,
    rules: Vec<Rules>,
}

impl Model for Macros {
    ghost use Rattle.std.specs.Prelude.{◌≡◌, List, map};
    ghost use Rattle.std.specs.Coded.{coded_list};
    ghost use Rattle.syntax_rules.specs.declared.rules.Rules.{Rules};
    ghost use Rattle.syntax_rules.specs.contracts.rules.Rules as the_rules;
    ghost use Rattle.expansion_steps.specs.Heads.{macro_name};

    ghost Value = { List Rules };

    ghost coded = { coded_list the_rules.the_row.coded };

    ghost view = { λ m. m.rules.items };

    ghost invariant = { λ m. m.names ≡ map macro_name m.rules.items };
}

fn rules_at(rules: &[Rules], place: usize) -> Option<&Rules>
    ensures { option_copied result ≡ slice_get rules.now place }
{
    rules.get(place)
}

impl Macros {
    pub fn new(alloc: Global) -> Macros
        ensures { result ≡ [] }
    {
        Macros {
            names: NameTable::new(alloc),
            rules: Vec::new(alloc),
        }
    }

    /// The macro of this name.
    pub fn named(&self, name: &[u8]) -> Option<&Rules>
        ensures { some_macro result ≡ macro_named name.now (macros_of self.now) }
    {
        match self.names.position(name) {
            Some(place) => rules_at(self.rules.as_slice(), place),
            None => None,
        }
    }

    /// Adds a macro of this name, unless one is known. Without memory for it nothing is added.
    pub fn add(&mut self, name: &[u8], rules: Rules) -> Result<(), OutOfMemory>
        requires { name.now ≡ macro_name rules }
        ensures { OnOk result (macros_of self.new ≡ with_macro (macros_of self.old) (the_macro rules)) }
    {
        if self.names.contains(name) {
            return Ok(());
        }
        self.rules.push(rules)?;
        if self.names.insert(name).is_err() {
            drop(self.rules.pop());
            return Err(OutOfMemory);
        }
        Ok(())
    }
}
