ghost use Rattle.std.specs.Prelude.{◌≡◌, ◌≤◌, [], length, drop, IfOk};
ghost use Rattle.scheme_data.specs.Forms.{form};
ghost use Rattle.syntax_rules.specs.Macros.{macro_of, rules_for, literals_of, rules_of, rule_of, rule_with, parts_of, with_literals, with_pattern};
ghost use Rattle.syntax_rules.specs.Patterns.{names_in, paths_in, patterns_of};
ghost use Rattle.syntax_rules.specs.Views.{forms_of, rule_if, rule_list_if, macro_if};

use crate::names::Names;
use crate::patterns::list_pattern_of;
use crate::rules::{Rule, Rules};
use crate::words::{parts, says, symbol};
use name_table::NameTable;
use scheme_data::{Datum, OutOfMemory, Text};
use sqlite_items::Items;
use std::alloc::Global;

/// The rules that a `define-syntax` form declares, if it is one.
pub(crate) fn read_macro(alloc: Global, d: &Datum) -> Result<Option<Rules>, OutOfMemory>
    ensures { IfOk result (λ o. macro_if o ≡ macro_of (form d.now)) }
{
    let Some(ds) = parts(d) else {
        return Ok(None);
    };
    if ds.len() != 3 {
        return Ok(None);
    }
    let Some(name) = symbol(&ds[1]) else {
        return Ok(None);
    };
    read_rules(alloc, name, &ds[2])
}

/// The rules of a form `(syntax-rules (literal ...) (pattern template) ...)`, if it is one.
fn read_rules(alloc: Global, name: &Text, d: &Datum) -> Result<Option<Rules>, OutOfMemory>
    ensures { IfOk result (λ o. macro_if o ≡ rules_for name.now (form d.now)) }
{
    let Some(ds) = parts(d) else {
        return Ok(None);
    };
    if ds.len() < 2 {
        return Ok(None);
    }
    if !says(&ds[0], b"syntax-rules") {
        return Ok(None);
    }
    let Some(words) = parts(&ds[1]) else {
        return Ok(None);
    };
    read_listed(alloc, name, words, &ds[2..])
}

/// The rules with these literals, if they are some.
fn read_listed(
    alloc: Global,
    name: &Text,
    words: &[Datum],
    ds: &[Datum],
) -> Result<Option<Rules>, OutOfMemory>
    ensures { IfOk result (λ o. macro_if o ≡ with_literals name.now (forms_of ds.now) (literals_of [] (forms_of words.now))) }
{
    let Some(literals) = read_literals(alloc, words)? else {
        return Ok(None);
    };
    let Some(rules) = read_rule_list(alloc, &literals, ds)? else {
        return Ok(None);
    };
    Ok(Some(Rules {
        name: name.copy(alloc)?,
        rules,
    }))
}

/// The names of literals, each once, if all are symbols.
fn read_literals(alloc: Global, ds: &[Datum]) -> Result<Option<NameTable>, OutOfMemory>
    ensures { IfOk result (λ o. o ≡ literals_of [] (forms_of ds.now)) }
{
    let mut literals = NameTable::new(alloc);
    for d in ds {
        let Datum::Sym(_, name, _) = d else {
            return Ok(None);
        };
        literals.insert(name.as_bytes())?;
    }
    Ok(Some(literals))
}

/// The rules that these are, if each is one.
fn read_rule_list(
    alloc: Global,
    literals: &NameTable,
    ds: &[Datum],
) -> Result<Option<Items<Rule>>, OutOfMemory>
    ensures { IfOk result (λ o. rule_list_if o ≡ rules_of literals.now (forms_of ds.now)) }
{
    let mut rules = Items::new(alloc);
    for d in ds {
        let Some(rule) = read_rule(alloc, literals, d)? else {
            return Ok(None);
        };
        rules.push(rule)?;
    }
    Ok(Some(rules))
}

/// The rule of a form `(pattern template)`, if it is one.
fn read_rule(alloc: Global, literals: &NameTable, d: &Datum) -> Result<Option<Rule>, OutOfMemory>
    ensures { IfOk result (λ o. rule_if o ≡ rule_of literals.now (form d.now)) }
{
    let Some(ds) = parts(d) else {
        return Ok(None);
    };
    if ds.len() != 2 {
        return Ok(None);
    }
    rule_with(alloc, literals, &ds[0], &ds[1])
}

/// The rule of a pattern and a template, if they are one.
fn rule_with(
    alloc: Global,
    literals: &NameTable,
    p: &Datum,
    t: &Datum,
) -> Result<Option<Rule>, OutOfMemory>
    ensures { IfOk result (λ o. rule_if o ≡ rule_with literals.now (parts_of (form p.now)) (form t.now)) }
{
    let Some(ps) = parts(p) else {
        return Ok(None);
    };
    if ps.is_empty() {
        return Ok(None);
    }
    make_rule(alloc, literals, ps, t)
}

/// The rule of a pattern's list and a template, if they are one. The first element of the list is ignored.
fn make_rule(
    alloc: Global,
    literals: &NameTable,
    ps: &[Datum],
    t: &Datum,
) -> Result<Option<Rule>, OutOfMemory>
    requires { 1 ≤ length ps.now }
    ensures { IfOk result (λ o. rule_if o ≡ with_pattern (names_in literals.now (forms_of (drop 1 ps.now))) (paths_in literals.now [] 1 (forms_of (drop 1 ps.now))) (form t.now) (patterns_of literals.now (forms_of (drop 1 ps.now)))) }
{
    let Some(pattern) = list_pattern_of(alloc, literals, &ps[1..])? else {
        return Ok(None);
    };
    let mut names = Names::new(alloc);
    if !names.add_all(literals, &[], 1, ps)? {
        return Ok(None);
    }
    let Some(template) = names.template(0, t)? else {
        return Ok(None);
    };
    let Names { paths, .. } = names;
    Ok(Some(Rule {
        pattern,
        paths,
        template,
    }))
}
