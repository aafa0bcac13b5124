ghost use Rattle.std.specs.Prelude.{◌≡◌, ◌≤◌, [], ◌∷◌, map, IfOk, IfErr, Some, None};
ghost use Rattle.scheme_data.specs.Forms.{form, forms, form_place, form_size};
ghost use Rattle.syntax_rules.specs.Answers.{RefusesRules, Expands};
ghost use Rattle.syntax_rules.specs.Macros.{macro_of};
ghost use Rattle.syntax_rules.specs.Uses.{only, made_by, by_rules, used_once};
ghost use Rattle.syntax_rules.specs.Views.{the_rule, the_macro, form_if};

use crate::error::RulesErr;
use crate::reading::read_macro;
use crate::rules::{Rule, Rules};
use crate::usage::Usage;
use scheme_data::{Datum, Text};
use sqlite_items::Items;
use std::alloc::Global;

impl Rules {
    /// The rules of a form `(define-syntax name (syntax-rules (literal ...) (pattern template) ...))`.
    pub fn new(alloc: Global, definition: &Datum) -> Result<Rules, RulesErr>
        ensures value { IfOk result (λ r. macro_of (form definition.now) ≡ Some (the_macro r)) }
        ensures refused { IfErr result (RefusesRules (form definition.now)) }
    {
        match read_macro(alloc, definition)? {
            Some(rules) => Ok(rules),
            None => Err(RulesErr::BadRules(definition.place())),
        }
    }

    /// The name of the macro.
    pub fn name(&self) -> &Text
        ensures { result.now ≡ (the_macro self.now).name }
    {
        &self.name
    }

    /// What a use becomes by the first rule that matches it. New symbols bear the mark, and new data have the place of the use.
    pub fn expand_once(
        &self,
        alloc: Global,
        call: &Datum,
        mark: u32,
        most: u64,
    ) -> Result<Datum, RulesErr>
        ensures { Expands (used_once (the_macro self.now) (form_place (form call.now)) mark (form call.now)) (form_place (form call.now)) most result }
    {
        let Datum::List(_, ds) = call else {
            return Err(RulesErr::NoRule(call.place()));
        };
        if ds.is_empty() {
            return Err(RulesErr::NoRule(call.place()));
        }
        self.expand_parts(alloc, call, &ds.as_slice()[1..], mark, most)
    }

    fn expand_parts(
        &self,
        alloc: Global,
        call: &Datum,
        parts: &[Datum],
        mark: u32,
        most: u64,
    ) -> Result<Datum, RulesErr>
        ensures { Expands (by_rules (map the_rule self.now.rules) (form_place (form call.now)) mark (form call.now) (forms (map form parts.now))) (form_place (form call.now)) most result }
    {
        for rule in self.rules.as_slice() {
            if rule.pattern.parts_match(parts) {
                return rule.make(alloc, call, mark, most);
            }
        }
        Err(RulesErr::NoRule(call.place()))
    }
}

impl Rule {
    /// What it makes of a use that its pattern matches.
    fn make(&self, alloc: Global, call: &Datum, mark: u32, most: u64) -> Result<Datum, RulesErr>
        ensures { Expands (made_by (the_rule self.now) (form_place (form call.now)) mark (form call.now)) (form_place (form call.now)) most result }
    {
        let usage = Usage {
            alloc,
            call,
            paths: self.paths.as_slice(),
            mark,
        };
        if !usage.agrees(&self.template, &[])? {
            return Err(RulesErr::NoRule(call.place()));
        }
        let mut made = Items::new(alloc);
        usage.fill(&self.template, &[], most, &mut made)?;
        match only(made) {
            Some(d) => Ok(d),
            None => Err(RulesErr::NoRule(call.place())),
        }
    }
}

/// The datum, where there is one alone.
fn only(ds: Items<Datum>) -> Option<Datum>
    ensures { form_if result ≡ only (map form ds) }
{
    let mut ds = ds;
    let last = ds.pop();
    if ds.is_empty() { last } else { None }
}
