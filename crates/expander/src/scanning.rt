// The macros that are written at the top level of a module.
ghost use Rattle.std.specs.Prelude.{◌≡◌, ◌&&◌, codes};
ghost use Rattle.std.specs.List.{list_any};
ghost use Rattle.scheme_data.specs.Forms.{form, form_place, form_says};
ghost use Rattle.syntax_rules.specs.Macros.{macro_of};
ghost use Rattle.core_forms.specs.Modules as modules;
ghost use Rattle.core_forms.specs.Modules.{with_top, with_rules, scan, scan_all, scan_module, declares};
ghost use Rattle.expander.specs.Answers.{module_of};
ghost use Rattle.expansion_steps.specs.Heads.{macros_of};
ghost use Rattle.expander.specs.Tops.{found_in, RulesAs, SyntaxAs, ScansAs, FindsAs};

use core_forms::{ExpandErr, says};
use expansion_steps::{Macros, refusal};
use scheme_data::{Datum, List, Place, Text};
use std::alloc::Global;
use syntax_rules::Rules;

/// A form at top level: one of which nothing is decided, or a `define-syntax`.
#[derive(Drop)]
pub enum Top {
    Form(Datum),
    Syntax(Place, Text),
}

/// The macros of a module and its forms at top level, as far as they are found.
#[derive(Drop)]
pub(crate) struct Found {
    pub(crate) macros: Macros,
    pub(crate) tops: List<Top>,
}

/// Whether this is a `define-syntax` of a macro called `begin`.
fn declares_begin(d: &Datum) -> bool
    ensures { result ≡ declares (codes "begin") (form d.now) }
{
    let Datum::List(_, ds) = d else {
        return false;
    };
    let [word, name, ..] = ds.as_slice() else {
        return false;
    };
    says(word, b"define-syntax") && says(name, b"begin")
}

/// Whether one of these defines a macro called `begin`.
fn declare_begin(ds: &[Datum]) -> bool
    ensures { result ≡ list_any (λ d. declares (codes "begin") (form d)) ds.now }
{
    ds.iter().any(|d| declares_begin(d))
}

/// Whether the forms behind this word stand at the top level too.
fn is_spliced(splices: bool, word: &Datum) -> bool
    ensures { result ≡ (form_says (form word.now) (codes "begin") && splices) }
{
    says(word, b"begin") && splices
}

/// The rules that a `define-syntax` declares.
fn rules_of(alloc: Global, datum: &Datum) -> Result<Rules, ExpandErr>
    ensures { RulesAs (form datum.now) result }
{
    match Rules::new(alloc, datum) {
        Ok(rules) => Ok(rules),
        Err(e) => Err(refusal(e)),
    }
}

/// Adds the macro of a definition, and gives what stands for it.
pub(crate) fn syntax(alloc: Global, macros: &mut Macros, datum: &Datum) -> Result<Top, ExpandErr>
    ensures { SyntaxAs (form datum.now) (macros_of macros.old) result (macros_of macros.new) }
{
    let rules = rules_of(alloc, datum)?;
    let name = rules.name().copy(alloc)?;
    macros.add(name.as_bytes(), rules)?;
    Ok(Top::Syntax(datum.place(), name))
}

/// Adds a form of which nothing is decided.
fn add_form(alloc: Global, found: &mut Found, datum: &Datum) -> Result<(), ExpandErr>
    ensures { ScansAs (with_top (modules.form (form datum.now)) (found_in found.old)) result (found_in found.new) }
{
    found.tops.push(Top::Form(datum.copy(alloc)?))?;
    Ok(())
}

/// Adds a `define-syntax` and its macro.
fn add_syntax(alloc: Global, found: &mut Found, datum: &Datum) -> Result<(), ExpandErr>
    ensures { ScansAs (with_rules (form_place (form datum.now)) (macro_of (form datum.now)) (found_in found.old)) result (found_in found.new) }
{
    let top = syntax(alloc, &mut found.macros, datum)?;
    found.tops.push(top)?;
    Ok(())
}

/// Adds what is written in a form at top level. The recursion is as deep as `begin` is nested, and the data that a reader gives nest 200 deep at most.
#[cycle(scanning)]
fn scan_form(
    alloc: Global,
    splices: bool,
    found: &mut Found,
    datum: &Datum,
) -> Result<(), ExpandErr>
    ensures { ScansAs (scan splices (form datum.now) (found_in found.old)) result (found_in found.new) }
{
    let Datum::List(_, items) = datum else {
        return add_form(alloc, found, datum);
    };
    let [word, rest @ ..] = items.as_slice() else {
        return add_form(alloc, found, datum);
    };
    if says(word, b"define-syntax") {
        return add_syntax(alloc, found, datum);
    }
    if is_spliced(splices, word) {
        return scan_forms(alloc, splices, found, rest);
    }
    add_form(alloc, found, datum)
}

/// Adds what is written in these forms.
#[cycle(scanning)]
fn scan_forms(
    alloc: Global,
    splices: bool,
    found: &mut Found,
    forms: &[Datum],
) -> Result<(), ExpandErr>
    ensures { ScansAs (scan_all splices (module_of forms.now) (found_in found.old)) result (found_in found.new) }
{
    for datum in forms {
        scan_form(alloc, splices, found, datum)?;
    }
    Ok(())
}

/// The macros that are written in a module, and its forms at top level.
pub(crate) fn scan(alloc: Global, forms: &[Datum]) -> Result<Found, ExpandErr>
    ensures { FindsAs (scan_module (module_of forms.now)) result }
{
    // A macro called `begin` hides the form whose parts stand at top level too.
    let splices = !declare_begin(forms);
    let mut found = Found {
        macros: Macros::new(alloc),
        tops: List::new(alloc),
    };
    scan_forms(alloc, splices, &mut found, forms)?;
    Ok(found)
}
