ghost use Rattle.std.specs.Prelude.{◌≡◌, List, [], ◌∷◌, ◌++◌, codes, Some, IfOk, OnOk};
ghost use Rattle.scheme_data.specs.declared.datum.Place.{Place};
ghost use Rattle.scheme_data.specs.Forms.{form, form_place, listed, next};
ghost use Rattle.syntax_rules.specs.Trees.{Macro};
ghost use Rattle.syntax_rules.specs.Macros.{macro_of};
ghost use Rattle.syntax_rules.specs.Views.{the_macro};
ghost use Rattle.core_forms.specs.Scope.{special, parts_of};
ghost use Rattle.core_forms.specs.Mid.{raw};
ghost use Rattle.core_forms.specs.Table.{core};
ghost use Rattle.core_forms.specs.Bodies.{used, definition_of};
ghost use Rattle.core_forms.specs.Code.{data_of};
ghost use Rattle.core_forms.specs.Rewriting.{Walked};
ghost use Rattle.core_forms.specs.Modules as modules;
ghost use Rattle.core_forms.specs.Modules.{TopTree, Expands, IsRefused, usual, inline, defined, evaluated, goes, tops_of, top_name, used_top, syntax_top, define_top, inline_of, top_as, top_step};
ghost use Rattle.expander.specs.Answers.{module_of, Answer, Gives, Refuses};
ghost use Rattle.expansion_steps.specs.Heads.{macros_of};
ghost use Rattle.expander.specs.Around.{SameAround};
ghost use Rattle.expander.specs.Tops.{top_of, all_tops};
ghost use Rattle.expander.specs.TopWalks.{TopsWalked, StepWalked, StepTaken, AddsAs, Advances, inlined, InlineAs};
ghost use Rattle.core_forms.specs.declared.counting.Counts.{Counts};
ghost use Rattle.core_forms.specs.declared.error.ExpandErr.{ExpandErr};

use crate::expander::Expander;
use crate::scanning::{Top, scan, syntax};
use core_forms::{
    Binder, Core, CoreExpr, CoreTop, Counts, DEEPEST, ExpandErr, Keyword, Open, Types, Work,
    binder_of, items_of,
};
use expansion_steps::{Definition, Head, Macros, behind_head, definition_of, expand_use, head_of};
use scheme_data::{Datum, List, OutOfMemory, Place, Stack};
use sqlite_items::Items;
use std::alloc::Global;
use syntax_rules::Rules;

/// The name of a definition at top level: without a mark, and at the place of the definition.
fn top_name(at: Place, binder: Binder) -> Binder
    ensures { result ≡ top_name at binder }
{
    Binder {
        at,
        name: binder.name,
        mark: 0,
        ty: binder.ty,
    }
}

/// The first of a list on top.
fn from_first(tops: List<Top>) -> Stack<Top>
    ensures { result ≡ tops }
{
    tops.into_stack().into_list().into_stack()
}

/// Forms in front of others.
fn put_tops(tops: &mut Stack<Top>, forms: Stack<Datum>) -> Result<(), OutOfMemory>
    ensures { OnOk result (all_tops tops.new ≡ tops_of (data_of forms) ++ all_tops tops.old) }
{
    let mut forms = forms.into_list().into_stack();
    while let Some(form) = forms.pop() {
        tops.push(Top::Form(form))?;
    }
    Ok(())
}

/// What a use of a macro becomes, in front of others.
fn use_macro(
    alloc: Global,
    counts: &mut Counts,
    rules: &Rules,
    datum: &Datum,
    tops: &mut Stack<Top>,
) -> Result<(), ExpandErr>
    ensures { (ks : List Macro) → StepTaken (used_top ks (used (the_macro rules.now) counts.old (form datum.now))) (all_tops tops.old) result ks counts.new (all_tops tops.new) }
{
    let result = expand_use(alloc, counts, rules, datum)?;
    tops.push(Top::Form(result))?;
    Ok(())
}

/// The forms of a `begin`, in front of others.
fn splice(alloc: Global, datum: Datum, tops: &mut Stack<Top>) -> Result<(), OutOfMemory>
    ensures { OnOk result (all_tops tops.new ≡ tops_of (parts_of (form datum)) ++ all_tops tops.old) }
{
    let special = behind_head(alloc, datum)?;
    put_tops(tops, special.forms)
}

/// What stands for a `define-syntax`, in front of others.
fn add_macro(
    alloc: Global,
    macros: &mut Macros,
    datum: &Datum,
    tops: &mut Stack<Top>,
) -> Result<(), ExpandErr>
    ensures { (n : Counts) → StepTaken (syntax_top (macros_of macros.old) n (form_place (form datum.now)) (macro_of (form datum.now))) (all_tops tops.old) result (macros_of macros.new) n (all_tops tops.new) }
{
    let top = syntax(alloc, macros, datum)?;
    tops.push(top)?;
    Ok(())
}

/// Adds a core form where one was made.
fn add(forms: &mut List<CoreTop>, made: Result<CoreTop, ExpandErr>) -> Result<(), ExpandErr>
    ensures { AddsAs made forms.old result forms.new }
{
    forms.push(made?)?;
    Ok(())
}

/// What a `define-inline` defines: its name, and what follows the word of its `lambda` form.
#[derive(Drop)]
pub(crate) struct Inline {
    pub(crate) binder: Binder,
    pub(crate) forms: Stack<Datum>,
}

/// The inline of a name in front of parameters, and a body of at least one form.
fn named_inline(
    alloc: Global,
    at: Place,
    names: Items<Datum>,
    body: Stack<Datum>,
) -> Result<Option<Inline>, OutOfMemory>
    ensures { IfOk result (λ i. (p : Place) → InlineAs p (next (listed at (data_of names)) (data_of body)) i) }
{
    let mut names = names;
    let mut forms = body;
    if names.is_empty() {
        return Ok(None);
    }
    if forms.is_empty() {
        return Ok(None);
    }
    let symbol = names.remove(0);
    let Some(binder) = binder_of(alloc, Types::Allowed, &symbol)? else {
        return Ok(None);
    };
    forms.push(Datum::List(at, names))?;
    Ok(Some(Inline { binder, forms }))
}

/// The inline that the forms behind the word define.
fn inline_of(alloc: Global, forms: Stack<Datum>) -> Result<Option<Inline>, OutOfMemory>
    ensures { IfOk result (λ i. (p : Place) → InlineAs p (data_of forms) i) }
{
    let mut forms = forms;
    let Some(first) = forms.pop() else {
        return Ok(None);
    };
    let at = first.place();
    let Some(names) = items_of(first) else {
        return Ok(None);
    };
    named_inline(alloc, at, names, forms)
}

impl Expander {
    /// An expression at top level.
    fn evaluate(&mut self, datum: Datum) -> Result<CoreTop, ExpandErr>
        requires { self.old.scope ≡ [] }
        ensures walked { StepWalked (macros_of self.old.macros) self.old.counts (goes (macros_of self.old.macros) self.old.counts (evaluated (raw (form datum)) ∷ [])) result self.new.counts }
        ensures around { OnOk result (SameAround self.old self.new) }
    {
        let expr = self.walk(DEEPEST, Work::Raw(Open::Datum(datum)))?;
        Ok(CoreTop::Form(expr))
    }

    /// The definition of a name as this value.
    fn define_value(
        &mut self,
        at: Place,
        binder: Binder,
        value: Datum,
    ) -> Result<CoreTop, ExpandErr>
        requires { self.old.scope ≡ [] }
        ensures walked { StepWalked (macros_of self.old.macros) self.old.counts (goes (macros_of self.old.macros) self.old.counts (defined usual (top_name at binder) 1 (raw (form value)) ∷ [])) result self.new.counts }
        ensures around { OnOk result (SameAround self.old self.new) }
    {
        let expr = self.walk(DEEPEST - 1, Work::Raw(Open::Datum(value)))?;
        Ok(CoreTop::Define(top_name(at, binder), expr))
    }

    /// The definition of a name as the `lambda` form with these forms behind its word.
    fn define_function(
        &mut self,
        at: Place,
        binder: Binder,
        forms: Stack<Datum>,
    ) -> Result<CoreTop, ExpandErr>
        requires { self.old.scope ≡ [] }
        ensures walked { StepWalked (macros_of self.old.macros) self.old.counts (goes (macros_of self.old.macros) self.old.counts (defined usual (top_name at binder) 0 (raw (core at (codes "lambda") (data_of forms))) ∷ [])) result self.new.counts }
        ensures around { OnOk result (SameAround self.old self.new) }
    {
        let expr = self.function(at, forms)?;
        Ok(CoreTop::Define(top_name(at, binder), expr))
    }

    /// The `lambda` form with these forms behind its word.
    fn function(&mut self, at: Place, forms: Stack<Datum>) -> Result<CoreExpr, ExpandErr>
        requires { self.old.scope ≡ [] }
        ensures walked { Walked (macros_of self.old.macros) 1000 [] self.old.counts (raw (core at (codes "lambda") (data_of forms))) result self.new.counts }
        ensures around { OnOk result (SameAround self.old self.new) }
    {
        self.walk(DEEPEST, Work::Raw(Open::Row(at, Keyword::Lambda, forms)))
    }

    fn define(&mut self, datum: Datum) -> Result<CoreTop, ExpandErr>
        requires { self.old.scope ≡ [] }
        ensures walked { StepWalked (macros_of self.old.macros) self.old.counts (define_top (macros_of self.old.macros) self.old.counts (form_place (form datum)) (definition_of (form datum))) result self.new.counts }
        ensures around { OnOk result (SameAround self.old self.new) }
    {
        let at = datum.place();
        match definition_of(self.alloc, datum)? {
            None => Err(ExpandErr::Form(at)),
            Some(Definition::Value(binder, _, _, value)) => self.define_value(at, binder, value),
            Some(Definition::Procedure(binder, forms)) => self.define_function(at, binder, forms),
        }
    }

    fn define_inline(&mut self, datum: Datum) -> Result<CoreTop, ExpandErr>
        requires { self.old.scope ≡ [] }
        ensures walked { StepWalked (macros_of self.old.macros) self.old.counts (inline_of (macros_of self.old.macros) self.old.counts (form datum)) result self.new.counts }
        ensures around { OnOk result (SameAround self.old self.new) }
    {
        let special = behind_head(self.alloc, datum)?;
        match inline_of(self.alloc, special.forms)? {
            None => Err(ExpandErr::Form(special.at)),
            Some(inline) => self.define_lambda(special.at, inline),
        }
    }

    fn define_lambda(&mut self, at: Place, inline: Inline) -> Result<CoreTop, ExpandErr>
        requires { self.old.scope ≡ [] }
        ensures walked { StepWalked (macros_of self.old.macros) self.old.counts (inlined (macros_of self.old.macros) self.old.counts at (Some inline)) result self.new.counts }
        ensures around { OnOk result (SameAround self.old self.new) }
    {
        let expr = self.function(at, inline.forms)?;
        Ok(CoreTop::DefineInline(top_name(at, inline.binder), expr))
    }

    /// A form at top level that begins with the word of a special form.
    fn special(
        &mut self,
        tops: &mut Stack<Top>,
        forms: &mut List<CoreTop>,
        keyword: Keyword,
        datum: Datum,
    ) -> Result<(), ExpandErr>
        requires { self.old.scope ≡ [] }
        ensures advances { (t : modules.Top) → top_step (macros_of self.old.macros) self.old.counts t ≡ top_as (special keyword) (macros_of self.old.macros) self.old.counts (form datum)
            → Advances (macros_of self.old.macros) self.old.counts forms.old (t ∷ all_tops tops.old) result (macros_of self.new.macros) self.new.counts forms.new (all_tops tops.new) }
        ensures scope { OnOk result (self.new.scope ≡ []) }
    {
        match keyword {
            Keyword::Begin => Ok(splice(self.alloc, datum, tops)?),
            Keyword::DefineSyntax => add_macro(self.alloc, &mut self.macros, &datum, tops),
            Keyword::Define => add(forms, self.define(datum)),
            Keyword::DefineInline => add(forms, self.define_inline(datum)),
            _ => add(forms, self.evaluate(datum)),
        }
    }

    /// A form at top level: the core form that it is, or others in its place.
    fn top(
        &mut self,
        tops: &mut Stack<Top>,
        forms: &mut List<CoreTop>,
        datum: Datum,
    ) -> Result<(), ExpandErr>
        requires { self.old.scope ≡ [] }
        ensures advances { Advances (macros_of self.old.macros) self.old.counts forms.old (modules.form (form datum) ∷ all_tops tops.old) result (macros_of self.new.macros) self.new.counts forms.new (all_tops tops.new) }
        ensures scope { OnOk result (self.new.scope ≡ []) }
    {
        match head_of(&self.macros, &self.scope, &datum)? {
            Head::Macro(rules) => use_macro(self.alloc, &mut self.counts, rules, &datum, tops),
            Head::Special(keyword) => self.special(tops, forms, keyword, datum),
            Head::Plain => add(forms, self.evaluate(datum)),
        }
    }

    /// What stands first at top level.
    fn first(
        &mut self,
        tops: &mut Stack<Top>,
        forms: &mut List<CoreTop>,
        top: Top,
    ) -> Result<(), ExpandErr>
        requires { self.old.scope ≡ [] }
        ensures advances { Advances (macros_of self.old.macros) self.old.counts forms.old (top_of top ∷ all_tops tops.old) result (macros_of self.new.macros) self.new.counts forms.new (all_tops tops.new) }
        ensures scope { OnOk result (self.new.scope ≡ []) }
    {
        match top {
            Top::Syntax(at, name) => add(forms, Ok(CoreTop::Syntax(at, name))),
            Top::Form(datum) => self.top(tops, forms, datum),
        }
    }

    /// The core forms of what is left at top level.
    fn tops(&mut self, tops: Stack<Top>) -> Result<Core, ExpandErr>
        requires { self.old.scope ≡ [] }
        ensures { TopsWalked (macros_of self.old.macros) self.old.counts (all_tops tops) result }
    {
        let mut tops = tops;
        let mut forms = List::new(self.alloc);
        'firsts: for _ in 0..u64::MAX {
            let Some(top) = tops.pop() else {
                return Ok(Core { forms });
            };
            self.first(&mut tops, &mut forms, top)?;
        }
        Err(ExpandErr::Memory)
    }
}

/// The core forms of a module, or its first breach.
fn answer(alloc: Global, forms: &[Datum]) -> Result<Core, ExpandErr>
    ensures { Answer (module_of forms.now) result }
{
    let found = scan(alloc, forms)?;
    let mut expander = Expander::new(alloc, found.macros);
    expander.tops(from_first(found.tops))
}

/// The core forms of a module, given its forms (R5RS chapter 4).
pub fn expand_module(alloc: Global, forms: &[Datum]) -> Result<Core, ExpandErr>
    // What is answered is what the module becomes, or its first breach.
    ensures answer { Answer (module_of forms.now) result }
    // What the module becomes is answered, unless memory runs out.
    ensures expanded { (trees : List TopTree) → Expands (module_of forms.now) trees → Gives trees result }
    // The first breach is answered, unless memory runs out.
    ensures refused { (breach : ExpandErr) → IsRefused (module_of forms.now) breach → Refuses breach result }
{
    answer(alloc, forms)
}
