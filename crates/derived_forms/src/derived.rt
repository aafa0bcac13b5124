// The rows of the table of derived forms (R5RS sections 4.2 and 7.3).

ghost use Rattle.std.specs.Prelude.{◌≡◌, IfOk, codes};
ghost use Rattle.std.specs.List.{list_all};
ghost use Rattle.scheme_data.specs.Forms.{form, symbol, listed, end, next, join};
ghost use Rattle.scheme_data.specs.declared.datum.Place.{Place as AnyPlace};
ghost use Rattle.core_forms.specs.Table.{means, derived, clause_of, clause_with, is_case_datum, cond_row, core, core_begin, same_as, t};
ghost use Rattle.core_forms.specs.Scope.{clauses_word};
ghost use Rattle.core_forms.specs.Names.{with_names};
ghost use Rattle.core_forms.specs.Code.{data_of, OkOrMemory};
ghost use Rattle.core_forms.specs.Working.{open_of, MeansAs};
ghost use Rattle.derived_forms.specs.Clauses.{cond_clause, is_passing, may_stand, is_last_else, begins_clause, test_of, the_clause, case_row, case_form, clauses_row, clause_row, clause_form, is_symbol, is_clause, is_clause_of, ClausesAs, IsBound, kept_row, passed_row, PartsAs, meant};
ghost use Rattle.derived_forms.specs.Rows.{DerivedAs, begins_with_symbol};
ghost use Rattle.core_forms.specs.declared.counting.Counts.{Counts as AnyCounts};
ghost use Rattle.core_forms.specs.declared.words.Keyword.TheVariants.{Let, LetStar, Cond, Case, Clauses, And, Or, When, Unless};

use crate::loops::{named_let, repeated};
use core_forms::{
    Bound, Counts, ExpandErr, Keyword, Open, core, items_of, listed, new_name, says, stacked, sure,
};
use scheme_data::{Datum, OutOfMemory, Place, Stack};
use sqlite_items::Items;
use std::alloc::Global;

/// What the table says of the word of a special form and the forms behind it.
#[derive(Drop)]
pub enum Derived {
    /// Another form is meant.
    Means(Open),
    /// It is a core form, with these behind its word.
    Core(Stack<Datum>),
}

/// A clause of `cond`.
#[derive(Drop)]
enum Clause {
    Otherwise(Items<Datum>),
    Test(Datum),
    Passes(Datum, Datum),
    Acts(Datum, Items<Datum>),
}

/// What a clause of `cond` says; none where it is none.
fn clause_of(clause: Datum) -> Option<Clause>
    ensures { cond_clause result ≡ clause_of (form clause) }
{
    let Datum::List(_, mut items) = clause else {
        return None;
    };
    if items.is_empty() {
        return None;
    }
    let first = items.remove(0);
    if says(&first, b"else") {
        return if items.is_empty() {
            None
        } else {
            Some(Clause::Otherwise(items))
        };
    }
    clause_with(first, items)
}

/// What a clause says that begins with a test, with what follows the test.
fn clause_with(test: Datum, items: Items<Datum>) -> Option<Clause>
    ensures { cond_clause result ≡ clause_with (form test) (data_of items) }
{
    let mut items = items;
    if items.is_empty() {
        return Some(Clause::Test(test));
    }
    if !is_passing(items.as_slice()) {
        return Some(Clause::Acts(test, items));
    }
    match items.pop() {
        None => None,
        Some(receiver) => Some(Clause::Passes(test, receiver)),
    }
}

/// Whether these are `=>` and one more.
fn is_passing(items: &[Datum]) -> bool
    ensures { result ≡ is_passing (data_of items.now) }
{
    if items.len() != 2 {
        return false;
    }
    says(&items[0], b"=>")
}

/// `(begin e ...)`
fn sequence(alloc: Global, at: Place, items: Items<Datum>) -> Result<Datum, OutOfMemory>
    ensures { IfOk result (λ d. form d ≡ core_begin at (data_of items)) }
{
    core(alloc, at, b"begin", items)
}

/// Whether a datum may stand in a clause of `case`.
fn is_case_datum(datum: &Datum) -> bool
    ensures { result ≡ is_case_datum (form datum.now) }
{
    match datum {
        Datum::Int(_, _) | Datum::Chr(_, _) | Datum::Bool(_, _) | Datum::Sym(_, _, _) => true,
        Datum::List(_, items) => items.is_empty(),
        _ => false,
    }
}

/// Whether data may stand in a clause of `case`.
fn are_case_data(data: &[Datum]) -> bool
    ensures { result ≡ list_all may_stand «data».now }
{
    data.iter().all(|datum| is_case_datum(datum))
}

/// Whether a datum is a clause of `case`; `else` only stands in the last.
fn is_case_clause(clause: &Datum, last: bool) -> bool
    ensures { result ≡ is_clause (form clause.now) last }
{
    match clause {
        Datum::List(_, items) => is_clause_of(items.as_slice(), last),
        _ => false,
    }
}

/// Whether these are the parts of a clause of `case`.
fn is_clause_of(items: &[Datum], last: bool) -> bool
    ensures { result ≡ is_clause_of (data_of items.now) last }
{
    if items.len() < 2 {
        return false;
    }
    begins_clause(&items[0], last)
}

/// Whether a clause of `case` may begin with this.
fn begins_clause(head: &Datum, last: bool) -> bool
    ensures { result ≡ begins_clause (form head.now) last }
{
    match head {
        Datum::List(_, data) => are_case_data(data.as_slice()),
        _ => is_last_else(head, last),
    }
}

/// Whether a datum is the `else` of the last clause.
fn is_last_else(head: &Datum, last: bool) -> bool
    ensures { result ≡ is_last_else (form head.now) last }
{
    if !last {
        return false;
    }
    says(head, b"else")
}

/// `(eqv? key 'd)`
fn is_equal(alloc: Global, at: Place, key: &Datum, datum: Datum) -> Result<Datum, OutOfMemory>
    ensures { IfOk result (λ d. form d ≡ test_of at (form key.now) (form datum)) }
{
    let mut behind = Items::new(alloc);
    behind.push(datum)?;
    let mut parts = Items::new(alloc);
    parts.push(key.copy(alloc)?)?;
    parts.push(core(alloc, at, b"quote", behind)?)?;
    core(alloc, at, b"eqv?", parts)
}

/// `(or (eqv? key 'd) ...)`
fn is_one_of(
    alloc: Global,
    at: Place,
    key: &Datum,
    choices: Items<Datum>,
) -> Result<Datum, OutOfMemory>
    ensures { IfOk result (λ d. form d ≡ core at (codes "or") (same_as at (form key.now) (data_of choices))) }
{
    let mut choices = stacked(alloc, choices)?;
    let mut tests = Items::new(alloc);
    tests.push(sure(alloc, at, b"or")?)?;
    while let Some(datum) = choices.pop() {
        let test = is_equal(alloc, at, key, datum)?;
        tests.push(test)?;
    }
    Ok(Datum::List(at, tests))
}

/// The row of the table for this word; an error where the forms behind it aren't as the row wants them.
pub fn row_of(
    alloc: Global,
    n: &mut Counts,
    at: Place,
    keyword: Keyword,
    forms: Stack<Datum>,
) -> Result<Derived, ExpandErr>
    ensures { DerivedAs (derived n.old at keyword (data_of forms)) at forms n.old result n.new }
{
    match keyword {
        Keyword::LetStar => meant(let_star_form(alloc, at, forms)),
        Keyword::Let => let_row(alloc, n, at, forms),
        Keyword::Cond => meant(cond(alloc, n, at, forms)),
        Keyword::Case => meant(case(alloc, n, at, forms)),
        Keyword::Clauses => meant(clauses(alloc, at, forms)),
        Keyword::And => Ok(Derived::Means(and(at, forms))),
        Keyword::Or => meant(or(alloc, n, at, forms)),
        Keyword::When => meant(when(alloc, at, forms)),
        Keyword::Unless => meant(unless(alloc, at, forms)),
        Keyword::Do => meant(repeated(alloc, n, at, forms)),
        Keyword::Quote
        | Keyword::Lambda
        | Keyword::If
        | Keyword::Set
        | Keyword::Begin
        | Keyword::Letrec
        | Keyword::BindExit
        | Keyword::UnwindProtect
        | Keyword::Define
        | Keyword::DefineInline
        | Keyword::DefineSyntax => Ok(Derived::Core(forms)),
    }
}

/// The form that is meant, where there is one.
fn meant(answer: Result<Open, ExpandErr>) -> Result<Derived, ExpandErr>
    ensures { result ≡ meant answer }
{
    Ok(Derived::Means(answer?))
}

/// A `let`, which is a derived form where a name stands in front.
fn let_row(
    alloc: Global,
    n: &mut Counts,
    at: Place,
    forms: Stack<Datum>,
) -> Result<Derived, ExpandErr>
    ensures { DerivedAs (derived n.old at Let (data_of forms)) at forms n.old result n.new }
{
    if !begins_with_symbol(&forms) {
        return Ok(Derived::Core(forms));
    }
    meant(named_let(alloc, n, at, forms))
}

/// Whether the first of these is a symbol.
fn begins_with_symbol(forms: &Stack<Datum>) -> bool
    ensures { result ≡ begins_with_symbol (data_of forms.now) }
{
    match forms.top() {
        None => false,
        Some(first) => is_symbol(first),
    }
}

/// Whether a datum is a symbol.
fn is_symbol(datum: &Datum) -> bool
    ensures { result ≡ is_symbol (form datum.now) }
{
    match datum {
        Datum::Sym(_, _, _) => true,
        _ => false,
    }
}

/// A `let*`.
fn let_star_form(alloc: Global, at: Place, forms: Stack<Datum>) -> Result<Open, ExpandErr>
    ensures { (n : AnyCounts) → MeansAs (derived n at LetStar (data_of forms)) at n result n }
{
    let mut forms = forms;
    match forms.pop() {
        None => Err(ExpandErr::Form(at)),
        Some(first) => let_star_with(alloc, at, first, forms),
    }
}

/// A `let*` with the list of its bindings.
fn let_star_with(
    alloc: Global,
    at: Place,
    first: Datum,
    body: Stack<Datum>,
) -> Result<Open, ExpandErr>
    ensures { (n : AnyCounts) → MeansAs (derived n at LetStar (next (form first) (data_of body))) at n result n }
{
    match items_of(first) {
        None => Err(ExpandErr::Form(at)),
        Some(bindings) => {
            let bindings = stacked(alloc, bindings)?;
            let_star(alloc, at, bindings, body)
        }
    }
}

/// The first binding of a `let*`, or its body.
pub fn let_star(
    alloc: Global,
    at: Place,
    bindings: Stack<Datum>,
    body: Stack<Datum>,
) -> Result<Open, ExpandErr>
    ensures { (n : AnyCounts) → (p : AnyPlace) → MeansAs (derived n at LetStar (next (listed p (data_of bindings)) (data_of body))) at n result n }
{
    let mut bindings = bindings;
    let mut body = body;
    if body.is_empty() {
        return Err(ExpandErr::Form(at));
    }
    match bindings.pop() {
        Some(first) => Ok(Open::LetFirst(at, first, bindings, body)),
        None => {
            body.push(Datum::List(at, Items::new(alloc)))?;
            Ok(Open::Row(at, Keyword::Let, body))
        }
    }
}

/// A new name for a value, which is also put behind the forms that use it.
fn new_bound(
    alloc: Global,
    n: &mut Counts,
    at: Place,
    value: Datum,
    uses: &mut Items<Datum>,
) -> Result<Bound, ExpandErr>
    ensures bound { OkOrMemory result (λ b. IsBound n.old at value b n.new) }
    ensures used { OkOrMemory result (λ _. data_of uses.new ≡ join (data_of uses.old) (next (t n.old at) end)) }
{
    let mut parts = Items::new(alloc);
    parts.push(value)?;
    let mark = n.take_names(1)?;
    uses.push(new_name(alloc, at, mark)?)?;
    parts.push(new_name(alloc, at, mark)?)?;
    Ok(Bound {
        binder: new_name(alloc, at, mark)?,
        name: parts.remove(1),
        value: parts.remove(0),
    })
}

/// A `cond`.
fn cond(alloc: Global, n: &mut Counts, at: Place, forms: Stack<Datum>) -> Result<Open, ExpandErr>
    ensures { MeansAs (derived n.old at Cond (data_of forms)) at n.old result n.new }
{
    let mut forms = forms;
    match forms.pop() {
        None => Ok(Open::Datum(Datum::Unspec(at))),
        Some(clause) => cond_with(alloc, n, at, clause, forms),
    }
}

/// A `cond` with its first clause.
fn cond_with(
    alloc: Global,
    n: &mut Counts,
    at: Place,
    clause: Datum,
    forms: Stack<Datum>,
) -> Result<Open, ExpandErr>
    ensures { MeansAs (cond_row n.old at (clause_of (form clause)) (data_of forms)) at n.old result n.new }
{
    match clause_of(clause) {
        None => Err(ExpandErr::Form(at)),
        Some(clause) => cond_row(alloc, n, at, clause, forms),
    }
}

/// What a `cond` means by what its first clause says.
fn cond_row(
    alloc: Global,
    n: &mut Counts,
    at: Place,
    clause: Clause,
    forms: Stack<Datum>,
) -> Result<Open, ExpandErr>
    ensures { MeansAs (cond_row n.old at (the_clause clause) (data_of forms)) at n.old result n.new }
{
    match clause {
        Clause::Otherwise(items) => {
            if !forms.is_empty() {
                return Err(ExpandErr::Form(at));
            }
            Ok(Open::Row(at, Keyword::Begin, stacked(alloc, items)?))
        }
        Clause::Test(test) => kept(alloc, n, at, test, Keyword::Cond, forms),
        Clause::Passes(test, receiver) => passed(alloc, n, at, test, receiver, forms),
        Clause::Acts(test, items) => {
            let action = sequence(alloc, at, items)?;
            Ok(Open::Choice(at, test, action, Keyword::Cond, forms))
        }
    }
}

/// `(let ((t e)) (if t t (word c ...)))`
fn kept(
    alloc: Global,
    n: &mut Counts,
    at: Place,
    value: Datum,
    keyword: Keyword,
    forms: Stack<Datum>,
) -> Result<Open, ExpandErr>
    ensures { MeansAs (kept_row n.old at value keyword forms) at n.old result n.new }
{
    let mut uses = Items::new(alloc);
    let bound = new_bound(alloc, n, at, value, &mut uses)?;
    let name = uses.remove(0);
    Ok(Open::Kept(at, bound, name, keyword, forms))
}

/// `(let ((t e)) (if t (g t) (cond c ...)))`
fn passed(
    alloc: Global,
    n: &mut Counts,
    at: Place,
    value: Datum,
    receiver: Datum,
    forms: Stack<Datum>,
) -> Result<Open, ExpandErr>
    ensures { MeansAs (passed_row n.old at value receiver forms) at n.old result n.new }
{
    let mut call = Items::new(alloc);
    call.push(receiver)?;
    let bound = new_bound(alloc, n, at, value, &mut call)?;
    let call = Datum::List(at, call);
    Ok(Open::Kept(at, bound, call, Keyword::Cond, forms))
}

/// A `case`.
fn case(alloc: Global, n: &mut Counts, at: Place, forms: Stack<Datum>) -> Result<Open, ExpandErr>
    ensures { MeansAs (derived n.old at Case (data_of forms)) at n.old result n.new }
{
    let mut forms = forms;
    match forms.pop() {
        None => Err(ExpandErr::Form(at)),
        Some(key) => case_with(alloc, n, at, key, forms),
    }
}

/// A `case` with its key.
fn case_with(
    alloc: Global,
    n: &mut Counts,
    at: Place,
    key: Datum,
    forms: Stack<Datum>,
) -> Result<Open, ExpandErr>
    ensures { MeansAs (case_row n.old at (form key) (data_of forms)) at n.old result n.new }
{
    match case_clauses(alloc, at, forms) {
        Err(error) => Err(error),
        Ok(clauses) => {
            let open = case_form(alloc, n, at, key, clauses)?;
            Ok(open)
        }
    }
}

/// `(let ((t k)) (case clauses t c ...))`
fn case_form(
    alloc: Global,
    n: &mut Counts,
    at: Place,
    key: Datum,
    clauses: Items<Datum>,
) -> Result<Open, ExpandErr>
    ensures meant { OkOrMemory result (λ o. open_of o ≡ case_form at (t n.old at) (t n.old at) (form key) (data_of clauses)) }
    ensures counted { OkOrMemory result (λ _. n.new ≡ with_names n.old 1) }
{
    let mut pair = Stack::new(alloc);
    pair.push(key)?;
    let mark = n.take_names(1)?;
    pair.push(new_name(alloc, at, mark)?)?;
    let open = case_of(alloc, at, mark, pair, clauses)?;
    Ok(open)
}

/// The form of a `case` from the new name's mark, and the name with the key.
fn case_of(
    alloc: Global,
    at: Place,
    mark: u32,
    pair: Stack<Datum>,
    clauses: Items<Datum>,
) -> Result<Open, OutOfMemory>
    ensures { IfOk result (λ o. open_of o ≡ core at (codes "let") (next (listed at (next (listed at (data_of pair)) end)) (next (core at clauses_word (next (symbol at (codes "t") mark) (data_of clauses))) end))) }
{
    let pair = listed(alloc, pair)?;
    let mut bindings = Items::new(alloc);
    bindings.push(Datum::List(at, pair))?;
    let mut behind = Items::new(alloc);
    behind.push(new_name(alloc, at, mark)?)?;
    behind.append(clauses)?;
    let mut all = Stack::new(alloc);
    all.push(core(alloc, at, b"case clauses", behind)?)?;
    all.push(Datum::List(at, bindings))?;
    Ok(Open::Row(at, Keyword::Let, all))
}

/// The clauses of a `case` behind the name of its key.
fn clauses(alloc: Global, at: Place, forms: Stack<Datum>) -> Result<Open, ExpandErr>
    ensures { (n : AnyCounts) → MeansAs (derived n at Clauses (data_of forms)) at n result n }
{
    let mut forms = forms;
    match forms.pop() {
        None => Err(ExpandErr::Form(at)),
        Some(key) => clauses_with(alloc, at, key, forms),
    }
}

/// The clauses of a `case` with this key.
fn clauses_with(
    alloc: Global,
    at: Place,
    key: Datum,
    forms: Stack<Datum>,
) -> Result<Open, ExpandErr>
    ensures { (n : AnyCounts) → MeansAs (clauses_row n at (form key) (data_of forms)) at n result n }
{
    let mut forms = forms;
    match forms.pop() {
        None => Ok(Open::Datum(Datum::Unspec(at))),
        Some(clause) => clause_with_key(alloc, at, key, clause, forms),
    }
}

/// A clause of a `case`, and those that follow.
fn clause_with_key(
    alloc: Global,
    at: Place,
    key: Datum,
    clause: Datum,
    forms: Stack<Datum>,
) -> Result<Open, ExpandErr>
    ensures { (n : AnyCounts) → MeansAs (clause_row n at (form key) (form clause) (data_of forms)) at n result n }
{
    let Some(mut items) = items_of(clause) else {
        return Err(ExpandErr::Form(at));
    };
    if items.is_empty() {
        return Err(ExpandErr::Form(at));
    }
    let head = items.remove(0);
    Ok(clause_parts(alloc, at, key, head, items, forms)?)
}

/// A clause of a `case` by its parts, and those that follow.
fn clause_parts(
    alloc: Global,
    at: Place,
    key: Datum,
    head: Datum,
    items: Items<Datum>,
    forms: Stack<Datum>,
) -> Result<Open, OutOfMemory>
    ensures { IfOk result (λ o. open_of o ≡ clause_form at (form key) (form head) (data_of items) (data_of forms)) }
{
    let mut forms = forms;
    match items_of(head) {
        None => Ok(Open::Row(at, Keyword::Begin, stacked(alloc, items)?)),
        Some(choices) => {
            let test = is_one_of(alloc, at, &key, choices)?;
            let action = sequence(alloc, at, items)?;
            forms.push(key)?;
            Ok(Open::Choice(at, test, action, Keyword::Clauses, forms))
        }
    }
}

/// An `and`.
fn and(at: Place, forms: Stack<Datum>) -> Open
    ensures { (n : AnyCounts) → derived n at And (data_of forms) ≡ means n (open_of result) }
{
    let mut forms = forms;
    let Some(first) = forms.pop() else {
        return Open::Datum(Datum::Bool(at, true));
    };
    if forms.is_empty() {
        return Open::Datum(first);
    }
    Open::Both(at, first, forms)
}

/// An `or`.
fn or(alloc: Global, n: &mut Counts, at: Place, forms: Stack<Datum>) -> Result<Open, ExpandErr>
    ensures { MeansAs (derived n.old at Or (data_of forms)) at n.old result n.new }
{
    let mut forms = forms;
    let Some(first) = forms.pop() else {
        return Ok(Open::Datum(Datum::Bool(at, false)));
    };
    if forms.is_empty() {
        return Ok(Open::Datum(first));
    }
    kept(alloc, n, at, first, Keyword::Or, forms)
}

/// A test, and a sequence of at least one form.
fn test_and_sequence(alloc: Global, at: Place, forms: Stack<Datum>) -> Result<Test, ExpandErr>
    ensures { PartsAs forms at result }
{
    let mut forms = forms;
    let Some(test) = forms.pop() else {
        return Err(ExpandErr::Form(at));
    };
    if forms.is_empty() {
        return Err(ExpandErr::Form(at));
    }
    let items = listed(alloc, forms)?;
    let action = sequence(alloc, at, items)?;
    Ok(Test { test, action })
}

/// A `when`.
fn when(alloc: Global, at: Place, forms: Stack<Datum>) -> Result<Open, ExpandErr>
    ensures { (n : AnyCounts) → MeansAs (derived n at When (data_of forms)) at n result n }
{
    let Test { test, action } = test_and_sequence(alloc, at, forms)?;
    let mut behind = Stack::new(alloc);
    behind.push(action)?;
    behind.push(test)?;
    Ok(Open::Row(at, Keyword::If, behind))
}

/// An `unless`.
fn unless(alloc: Global, at: Place, forms: Stack<Datum>) -> Result<Open, ExpandErr>
    ensures { (n : AnyCounts) → MeansAs (derived n at Unless (data_of forms)) at n result n }
{
    let Test { test, action } = test_and_sequence(alloc, at, forms)?;
    let mut behind = Stack::new(alloc);
    behind.push(action)?;
    behind.push(Datum::Unspec(at))?;
    behind.push(test)?;
    Ok(Open::Row(at, Keyword::If, behind))
}

/// The test and the forms of `when` and `unless`.
#[derive(Drop)]
struct Test {
    test: Datum,
    action: Datum,
}

/// The clauses of a `case`, where all are.
fn case_clauses(alloc: Global, at: Place, clauses: Stack<Datum>) -> Result<Items<Datum>, ExpandErr>
    ensures { ClausesAs clauses at result }
{
    let mut clauses = clauses;
    let mut items = Items::new(alloc);
    while let Some(clause) = clauses.pop() {
        let last = clauses.is_empty();
        if !is_case_clause(&clause, last) {
            return Err(ExpandErr::Form(at));
        }
        items.push(clause)?;
    }
    Ok(items)
}
