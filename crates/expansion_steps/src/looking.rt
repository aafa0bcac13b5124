// What stands first among the forms of a body (R5RS section 5.2.2).

ghost use Rattle.std.specs.Prelude.{◌≡◌, List, [], IfOk, true, Some, Ok};
ghost use Rattle.scheme_data.specs.Forms.{Form, form, form_place, listed as of_list, end, next};
ghost use Rattle.syntax_rules.specs.Trees.{Macro as AnyMacro};
ghost use Rattle.syntax_rules.specs.Views.{the_macro};
ghost use Rattle.core_forms.specs.Scope.{Marked, macro, special, head_meaning};
ghost use Rattle.core_forms.specs.Names.{binder_of};
ghost use Rattle.core_forms.specs.Table.{core};
ghost use Rattle.core_forms.specs.Bodies.{definition_of, value as of_value, procedure as of_procedure, settled as settled_by, is_core};
ghost use Rattle.core_forms.specs.Code.{OkOrMemory, data_of, spelling};
ghost use Rattle.core_forms.specs.Working.{open_of};
ghost use Rattle.core_forms.specs.declared.counting.Counts.{Counts as AnyCounts};
ghost use Rattle.core_forms.specs.declared.words.Keyword.TheVariants.{Begin, Define, LetStar};
ghost use Rattle.expansion_steps.specs.Heads.{macros_of};
ghost use Rattle.expansion_steps.specs.Parts.{DefinedAs, definition_is};
ghost use Rattle.expansion_steps.specs.Decided.{defined_name, is_listed, value_in, procedure_in, second_in, is_memory, StepAs};
ghost use Rattle.expansion_steps.specs.Steps.{SettlesAs, LooksAs};

use crate::heads::{Head, head_of};
use crate::macros::Macros;
use crate::uses::expand_use;
use core_forms::{
    Binder, Counts, ExpandErr, Function, Keyword, Open, Types, binder_of, items_of, keyword_of,
    listed, put_in_front, stacked,
};
use derived_forms::{Derived, let_star, row_of};
use marked_names::Scope;
use scheme_data::{Datum, OutOfMemory, Place, Stack};
use sqlite_items::Items;
use std::alloc::Global;
use syntax_rules::Rules;

/// What stands first in a body, with the forms that follow.
#[derive(Drop)]
pub enum First {
    /// The use of a macro in this form isn't expanded, and so it stays.
    Stuck(Datum, Stack<Datum>, ExpandErr),
    /// A definition at this place.
    Variable(Place, Binder, Open, Stack<Datum>),
    Function(Place, Function, Stack<Datum>),
    Expression(Datum, Stack<Datum>),
}

/// What the forms of a body come to.
#[derive(Drop)]
pub enum Looked {
    /// These stand there instead.
    Instead(Stack<Datum>),
    First(First),
}

/// What is decided of a value by its head.
#[derive(Drop)]
pub enum Settled {
    /// A `lambda` form at this place, and the forms behind its word.
    Lambda(Place, Stack<Datum>),
    Other(Open),
    /// The use of a macro isn't expanded.
    Stuck(Datum, ExpandErr),
}

/// What settles a value, or the value that stands in its place.
#[derive(Drop)]
enum Step {
    Done(Settled),
    Again(Open),
}

/// A definition.
#[derive(Drop)]
pub enum Definition {
    /// The word, the symbol and the value of `(define x e)`.
    Value(Binder, Datum, Datum, Datum),
    /// What would follow the word of a `lambda` form in `(define (f x ...) b ...)`.
    Procedure(Binder, Stack<Datum>),
}

/// A name that may be defined: no special form's word.
fn unless_word(binder: Binder) -> Option<Binder>
    ensures { result ≡ defined_name (Some binder) }
{
    match keyword_of(binder.name.as_bytes()) {
        None => Some(binder),
        Some(_keyword) => None,
    }
}

/// The name that a symbol defines, where it may be defined.
fn definable(alloc: Global, symbol: &Datum) -> Result<Option<Binder>, OutOfMemory>
    ensures { IfOk result (λ b. b ≡ defined_name (binder_of true (form symbol.now))) }
{
    match binder_of(alloc, Types::Allowed, symbol)? {
        Some(binder) => Ok(unless_word(binder)),
        None => Ok(None),
    }
}

fn is_list(datum: &Datum) -> bool
    ensures { result ≡ is_listed (form datum.now) }
{
    match datum {
        Datum::List(_, _) => true,
        _ => false,
    }
}

/// The definition that a form is, where it is one.
pub fn definition_of(alloc: Global, datum: Datum) -> Result<Option<Definition>, ExpandErr>
    ensures { OkOrMemory result (λ d. DefinedAs (definition_of (form datum)) d) }
{
    let Some(items) = items_of(datum) else {
        return Ok(None);
    };
    let mut forms = stacked(alloc, items)?;
    let Some(word) = forms.pop() else {
        return Ok(None);
    };
    let Some(second) = forms.pop() else {
        return Ok(None);
    };
    defined(alloc, word, second, forms)
}

/// The definition with these forms behind its word.
fn defined(
    alloc: Global,
    word: Datum,
    second: Datum,
    others: Stack<Datum>,
) -> Result<Option<Definition>, ExpandErr>
    ensures { OkOrMemory result (λ d. DefinedAs (second_in (form word) (form second) (data_of others)) d) }
{
    if is_list(&second) {
        procedure(alloc, second, others)
    } else {
        value(alloc, word, second, others)
    }
}

/// A name, and its value.
fn value(
    alloc: Global,
    word: Datum,
    symbol: Datum,
    others: Stack<Datum>,
) -> Result<Option<Definition>, ExpandErr>
    ensures { OkOrMemory result (λ d. DefinedAs (value_in (form word) (form symbol) (data_of others)) d) }
{
    let mut others = others;
    let Some(value) = others.pop() else {
        return Ok(None);
    };
    if !others.is_empty() {
        return Ok(None);
    }
    match definable(alloc, &symbol)? {
        Some(binder) => Ok(Some(Definition::Value(binder, word, symbol, value))),
        None => Ok(None),
    }
}

/// A name in front of parameters, and a body of at least one form.
fn procedure(
    alloc: Global,
    target: Datum,
    body: Stack<Datum>,
) -> Result<Option<Definition>, ExpandErr>
    ensures { OkOrMemory result (λ d. DefinedAs (procedure_in (form target) (data_of body)) d) }
{
    let at = target.place();
    let Some(items) = items_of(target) else {
        return Ok(None);
    };
    if body.is_empty() {
        return Ok(None);
    }
    let mut names = stacked(alloc, items)?;
    let Some(symbol) = names.pop() else {
        return Ok(None);
    };
    match definable(alloc, &symbol)? {
        Some(binder) => parameters(alloc, at, binder, names, body),
        None => Ok(None),
    }
}

/// The parameters, and the body.
fn parameters(
    alloc: Global,
    at: Place,
    binder: Binder,
    names: Stack<Datum>,
    body: Stack<Datum>,
) -> Result<Option<Definition>, ExpandErr>
    ensures { OkOrMemory result (λ d. DefinedAs (Some (of_procedure binder (next (of_list at (data_of names)) (data_of body)))) d) }
{
    let mut body = body;
    let names = listed(alloc, names)?;
    body.push(Datum::List(at, names))?;
    Ok(Some(Definition::Procedure(binder, body)))
}

/// `(define x e)`
fn defined_as(
    alloc: Global,
    at: Place,
    word: Datum,
    symbol: Datum,
    value: Datum,
) -> Result<Datum, OutOfMemory>
    ensures { IfOk result (λ d. form d ≡ of_list at (next (form word) (next (form symbol) (next (form value) end)))) }
{
    let mut items = Items::new(alloc);
    items.push(word)?;
    items.push(symbol)?;
    items.push(value)?;
    Ok(Datum::List(at, items))
}

/// Whether memory was wanted.
fn wants_memory(e: ExpandErr) -> bool
    ensures { result ≡ is_memory e }
{
    match e {
        ExpandErr::Memory => true,
        _ => false,
    }
}

/// One step in settling a value.
fn settle_step(
    alloc: Global,
    ks: &Macros,
    s: &Scope,
    n: &mut Counts,
    value: Open,
) -> Result<Step, ExpandErr>
    ensures { StepAs (macros_of ks.now) s.now n.old (open_of value) result n.new }
{
    match value {
        Open::Datum(datum) => settle_datum(alloc, ks, s, n, datum),
        Open::Row(at, keyword, forms) => settle_row(alloc, n, at, keyword, forms),
        Open::LetStar(at, bindings, body) => settle_bindings(alloc, at, bindings, body),
        other => Ok(Step::Done(Settled::Other(other))),
    }
}

fn settle_bindings(
    alloc: Global,
    at: Place,
    bindings: Stack<Datum>,
    body: Stack<Datum>,
) -> Result<Step, ExpandErr>
    ensures { (ks : List AnyMacro) → (s : List Marked) → (n : AnyCounts) → StepAs ks s n (core at (spelling LetStar) (next (of_list at (data_of bindings)) (data_of body))) result n }
{
    match let_star(alloc, at, bindings, body) {
        Ok(other) => Ok(Step::Again(other)),
        Err(e) => Err(e),
    }
}

fn settle_datum(
    alloc: Global,
    ks: &Macros,
    s: &Scope,
    n: &mut Counts,
    value: Datum,
) -> Result<Step, ExpandErr>
    ensures { StepAs (macros_of ks.now) s.now n.old (form value) result n.new }
{
    match head_of(ks, s, &value)? {
        Head::Plain => Ok(Step::Done(Settled::Other(Open::Datum(value)))),
        Head::Special(keyword) => settle_special(alloc, n, keyword, value),
        Head::Macro(rules) => settle_use(alloc, n, rules, value),
    }
}

fn settle_use(alloc: Global, n: &mut Counts, rules: &Rules, value: Datum) -> Result<Step, ExpandErr>
    ensures { (ks : List AnyMacro) → (s : List Marked) → head_meaning ks s (form value) ≡ macro (the_macro rules.now) → StepAs ks s n.old (form value) result n.new }
{
    match expand_use(alloc, n, rules, &value) {
        Ok(result) => Ok(Step::Again(Open::Datum(result))),
        Err(e) => {
            if wants_memory(e) {
                Err(ExpandErr::Memory)
            } else {
                Ok(Step::Done(Settled::Stuck(value, e)))
            }
        }
    }
}

/// A form whose head is the word of a special form.
fn settle_special(
    alloc: Global,
    n: &mut Counts,
    keyword: Keyword,
    value: Datum,
) -> Result<Step, ExpandErr>
    ensures { (ks : List AnyMacro) → (s : List Marked) → head_meaning ks s (form value) ≡ special keyword → StepAs ks s n.old (form value) result n.new }
{
    let at = value.place();
    let Some(items) = items_of(value) else {
        return Err(ExpandErr::Form(at));
    };
    let mut forms = stacked(alloc, items)?;
    let Some(word) = forms.pop() else {
        return Err(ExpandErr::Form(at));
    };
    settle_listed(alloc, n, at, keyword, word, forms)
}

fn settle_listed(
    alloc: Global,
    n: &mut Counts,
    at: Place,
    keyword: Keyword,
    word: Datum,
    others: Stack<Datum>,
) -> Result<Step, ExpandErr>
    ensures { (ks : List AnyMacro) → (s : List Marked) → head_meaning ks s (of_list at (next (form word) (data_of others))) ≡ special keyword → StepAs ks s n.old (of_list at (next (form word) (data_of others))) result n.new }
{
    match row_of(alloc, n, at, keyword, others) {
        Ok(Derived::Means(other)) => Ok(Step::Again(other)),
        Ok(Derived::Core(forms)) => settled_core(alloc, at, keyword, word, forms),
        Err(e) => Err(e),
    }
}

/// A core form stays as it is.
fn settled_core(
    alloc: Global,
    at: Place,
    keyword: Keyword,
    word: Datum,
    others: Stack<Datum>,
) -> Result<Step, ExpandErr>
    ensures { (ks : List AnyMacro) → (s : List Marked) → (n : AnyCounts) → settled_by ks s n (of_list at (next (form word) (data_of others))) ≡ is_core keyword → StepAs ks s n (of_list at (next (form word) (data_of others))) result n }
{
    match keyword {
        Keyword::Lambda => Ok(Step::Done(Settled::Lambda(at, others))),
        _ => {
            let whole = with_word(alloc, at, word, others)?;
            Ok(Step::Done(Settled::Other(Open::Datum(whole))))
        }
    }
}

/// The form of this word and those behind it.
fn with_word(
    alloc: Global,
    at: Place,
    word: Datum,
    others: Stack<Datum>,
) -> Result<Datum, OutOfMemory>
    ensures { IfOk result (λ d. form d ≡ of_list at (next (form word) (data_of others))) }
{
    let mut others = others;
    others.push(word)?;
    Ok(Datum::List(at, listed(alloc, others)?))
}

fn settle_row(
    alloc: Global,
    n: &mut Counts,
    at: Place,
    keyword: Keyword,
    others: Stack<Datum>,
) -> Result<Step, ExpandErr>
    ensures { (ks : List AnyMacro) → (s : List Marked) → StepAs ks s n.old (core at (spelling keyword) (data_of others)) result n.new }
{
    match row_of(alloc, n, at, keyword, others) {
        Ok(Derived::Means(other)) => Ok(Step::Again(other)),
        Ok(Derived::Core(forms)) => Ok(Step::Done(settled_row(at, keyword, forms))),
        Err(e) => Err(e),
    }
}

fn settled_row(at: Place, keyword: Keyword, others: Stack<Datum>) -> Settled
    ensures { (ks : List AnyMacro) → (s : List Marked) → (n : AnyCounts) → settled_by ks s n (core at (spelling keyword) (data_of others)) ≡ is_core keyword → SettlesAs ks s n (core at (spelling keyword) (data_of others)) (Ok result) n }
{
    match keyword {
        Keyword::Lambda => Settled::Lambda(at, others),
        _ => Settled::Other(Open::Row(at, keyword, others)),
    }
}

/// What a value is once its head is decided: a `lambda` form, or something else.
pub fn settle(
    alloc: Global,
    ks: &Macros,
    s: &Scope,
    n: &mut Counts,
    datum: Datum,
) -> Result<Settled, ExpandErr>
    ensures { SettlesAs (macros_of ks.now) s.now n.old (form datum) result n.new }
{
    let mut value = Open::Datum(datum);
    for _ in 0..u64::MAX {
        match settle_step(alloc, ks, s, n, value) {
            Ok(Step::Done(settled)) => return Ok(settled),
            Ok(Step::Again(other)) => value = other,
            Err(e) => return Err(e),
        }
    }
    // One call: left to the end of the function, each kind of form would be a case of its proof.
    drop(value);
    Err(ExpandErr::Memory)
}

/// The forms behind the word of a `begin`, in front of others.
fn begin(datum: Datum, others: Stack<Datum>) -> Result<Looked, ExpandErr>
    ensures { (ks : List AnyMacro) → (s : List Marked) → (n : AnyCounts) → head_meaning ks s (form datum) ≡ special Begin → LooksAs ks s n (next (form datum) (data_of others)) result n }
{
    let at = datum.place();
    let Some(items) = items_of(datum) else {
        return Err(ExpandErr::Form(at));
    };
    if items.len() < 2 {
        return Err(ExpandErr::Form(at));
    }
    let mut others = others;
    put_in_front(&mut others, items)?;
    drop(others.pop());
    Ok(Looked::Instead(others))
}

/// A definition, which isn't the last form.
fn look_at_definition(
    alloc: Global,
    ks: &Macros,
    s: &Scope,
    n: &mut Counts,
    datum: Datum,
    others: Stack<Datum>,
) -> Result<Looked, ExpandErr>
    ensures { head_meaning (macros_of ks.now) s.now (form datum) ≡ special Define → LooksAs (macros_of ks.now) s.now n.old (next (form datum) (data_of others)) result n.new }
{
    let at = datum.place();
    let Some(definition) = definition_of(alloc, datum)? else {
        return Err(ExpandErr::Form(at));
    };
    if others.is_empty() {
        return Err(ExpandErr::Form(at));
    }
    look_at_defined(alloc, ks, s, n, at, definition, others)
}

fn look_at_defined(
    alloc: Global,
    ks: &Macros,
    s: &Scope,
    n: &mut Counts,
    at: Place,
    definition: Definition,
    others: Stack<Datum>,
) -> Result<Looked, ExpandErr>
    requires { others ≡ [] → ⊥ }
    ensures { (d : Form) → head_meaning (macros_of ks.now) s.now d ≡ special Define → form_place d ≡ at → definition_of d ≡ Some (definition_is definition) → LooksAs (macros_of ks.now) s.now n.old (next d (data_of others)) result n.new }
{
    match definition {
        Definition::Procedure(binder, body) => {
            let function = Function {
                binder,
                at,
                forms: body,
            };
            Ok(Looked::First(First::Function(at, function, others)))
        }
        Definition::Value(binder, word, symbol, value) => {
            let settled = settle(alloc, ks, s, n, value)?;
            look_at_value(alloc, at, binder, word, symbol, settled, others)
        }
    }
}

/// What stands first, where this form does and these follow.
pub fn look(
    alloc: Global,
    ks: &Macros,
    s: &Scope,
    n: &mut Counts,
    datum: Datum,
    others: Stack<Datum>,
) -> Result<Looked, ExpandErr>
    ensures { LooksAs (macros_of ks.now) s.now n.old (next (form datum) (data_of others)) result n.new }
{
    match head_of(ks, s, &datum)? {
        Head::Macro(rules) => look_at_use(alloc, n, rules, datum, others),
        Head::Special(keyword) => look_at_word(alloc, ks, s, n, keyword, datum, others),
        Head::Plain => Ok(Looked::First(First::Expression(datum, others))),
    }
}

/// A form whose head is the word of a special form.
fn look_at_word(
    alloc: Global,
    ks: &Macros,
    s: &Scope,
    n: &mut Counts,
    keyword: Keyword,
    datum: Datum,
    others: Stack<Datum>,
) -> Result<Looked, ExpandErr>
    ensures { head_meaning (macros_of ks.now) s.now (form datum) ≡ special keyword → LooksAs (macros_of ks.now) s.now n.old (next (form datum) (data_of others)) result n.new }
{
    match keyword {
        Keyword::Begin => begin(datum, others),
        Keyword::Define => look_at_definition(alloc, ks, s, n, datum, others),
        _ => Ok(Looked::First(First::Expression(datum, others))),
    }
}

fn look_at_use(
    alloc: Global,
    n: &mut Counts,
    rules: &Rules,
    datum: Datum,
    others: Stack<Datum>,
) -> Result<Looked, ExpandErr>
    ensures { (ks : List AnyMacro) → (s : List Marked) → head_meaning ks s (form datum) ≡ macro (the_macro rules.now) → LooksAs ks s n.old (next (form datum) (data_of others)) result n.new }
{
    let mut others = others;
    match expand_use(alloc, n, rules, &datum) {
        Ok(result) => {
            others.push(result)?;
            Ok(Looked::Instead(others))
        }
        Err(e) => {
            if wants_memory(e) {
                Err(ExpandErr::Memory)
            } else {
                Ok(Looked::First(First::Stuck(datum, others, e)))
            }
        }
    }
}

fn look_at_value(
    alloc: Global,
    at: Place,
    binder: Binder,
    word: Datum,
    symbol: Datum,
    settled: Settled,
    others: Stack<Datum>,
) -> Result<Looked, ExpandErr>
    requires { others ≡ [] → ⊥ }
    ensures { (ks : List AnyMacro) → (s : List Marked) → (n m : AnyCounts) → (d e : Form) → head_meaning ks s d ≡ special Define → form_place d ≡ at → definition_of d ≡ Some (of_value binder (form word) (form symbol) e) → SettlesAs ks s n e (Ok settled) m → LooksAs ks s n (next d (data_of others)) result m }
{
    match settled {
        Settled::Lambda(place, behind) => {
            let function = Function {
                binder,
                at: place,
                forms: behind,
            };
            Ok(Looked::First(First::Function(at, function, others)))
        }
        Settled::Other(value) => Ok(Looked::First(First::Variable(at, binder, value, others))),
        Settled::Stuck(value, e) => {
            let form = defined_as(alloc, at, word, symbol, value)?;
            Ok(Looked::First(First::Stuck(form, others, e)))
        }
    }
}
