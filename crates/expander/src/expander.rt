ghost use Rattle.std.specs.Prelude.{◌≡◌, [], IfOk, OnOk, length};
ghost use Rattle.scheme_data.specs.Forms.{form, next};
ghost use Rattle.core_forms.specs.Scope.{entered};
ghost use Rattle.core_forms.specs.Rewriting.{raw_turn};
ghost use Rattle.core_forms.specs.Modules.{start};
ghost use Rattle.core_forms.specs.Code.{data_of};
ghost use Rattle.core_forms.specs.Working.{open_of, kind_binders, TurnsAs};
ghost use Rattle.expansion_steps.specs.Heads.{macros_of};
ghost use Rattle.expansion_steps.specs.Steps.{SettlesAs, LooksAs};
ghost use Rattle.expander.specs.Around.{SameAround};

use core_forms::{Binder, Counts, ExpandErr, Kind, Open, Turned};
use expansion_steps::{Looked, Macros, Settled, look, settle, turn};
use marked_names::Scope;
use scheme_data::{Datum, OutOfMemory, Stack};
use std::alloc::Global;

/// What is known where a form is expanded: the macros, the names around, and what was counted so far.
#[derive(Drop)]
pub struct Expander {
    pub(crate) alloc: Global,
    pub(crate) macros: Macros,
    pub(crate) scope: Scope,
    pub(crate) counts: Counts,
}

impl Expander {
    /// At the beginning of a module, where these macros are known.
    pub(crate) fn new(alloc: Global, macros: Macros) -> Expander
        ensures macros { result.macros ≡ macros }
        ensures scope { result.scope ≡ [] }
        ensures counts { result.counts ≡ start }
    {
        Expander {
            alloc,
            macros,
            scope: Scope::new(alloc),
            counts: Counts {
                expansions: 0,
                filled: 0,
                names: 0,
            },
        }
    }

    /// What stands in the place of a form.
    pub(crate) fn turn(&mut self, opened: Open) -> Result<Turned, ExpandErr>
        ensures turns { TurnsAs (raw_turn (macros_of self.old.macros) self.old.scope self.old.counts (open_of opened)) result self.new.counts }
        ensures around { SameAround self.old self.new }
    {
        turn(
            self.alloc,
            &self.macros,
            &self.scope,
            &mut self.counts,
            opened,
        )
    }

    /// What a value is once its head is decided: a `lambda` form, or something else.
    pub(crate) fn settle(&mut self, value: Datum) -> Result<Settled, ExpandErr>
        ensures settles { SettlesAs (macros_of self.old.macros) self.old.scope self.old.counts (form value) result self.new.counts }
        ensures around { SameAround self.old self.new }
    {
        settle(
            self.alloc,
            &self.macros,
            &self.scope,
            &mut self.counts,
            value,
        )
    }

    /// What stands first in a body, where this form does and these follow.
    pub(crate) fn look(&mut self, first: Datum, forms: Stack<Datum>) -> Result<Looked, ExpandErr>
        ensures looks { LooksAs (macros_of self.old.macros) self.old.scope self.old.counts (next (form first) (data_of forms)) result self.new.counts }
        ensures around { SameAround self.old self.new }
    {
        look(
            self.alloc,
            &self.macros,
            &self.scope,
            &mut self.counts,
            first,
            forms,
        )
    }

    /// Binds names, one after another.
    fn enter(&mut self, binders: &[Binder]) -> Result<(), OutOfMemory>
        ensures entered { OnOk result (self.new.scope ≡ entered binders.now self.old.scope) }
        ensures macros { self.new.macros ≡ self.old.macros }
        ensures counts { self.new.counts ≡ self.old.counts }
    {
        for binder in binders {
            self.scope.enter(binder.name.as_bytes(), binder.mark)?;
        }
        Ok(())
    }

    /// Binds the names of a core form, and tells how many they are.
    pub(crate) fn enter_kind(&mut self, kind: &Kind) -> Result<usize, OutOfMemory>
        ensures entered { OnOk result (self.new.scope ≡ entered (kind_binders kind.now) self.old.scope) }
        ensures count { IfOk result (λ count. count ≡ length (kind_binders kind.now)) }
        ensures macros { self.new.macros ≡ self.old.macros }
        ensures counts { self.new.counts ≡ self.old.counts }
    {
        match kind {
            Kind::Lambda(binders) | Kind::Let(binders) | Kind::Letrec(binders) => {
                self.enter(binders.as_slice())?;
                Ok(binders.len())
            }
            Kind::BindExit(binder) => {
                self.scope.enter(binder.name.as_bytes(), binder.mark)?;
                Ok(1)
            }
            _ => Ok(0),
        }
    }
}
