// One replacement of a form.

ghost use Rattle.std.specs.Prelude.{◌≡◌, [], ◌∷◌, IfOk, OnOk, codes, true};
ghost use Rattle.scheme_data.specs.Forms.{Forms, form, listed, end, next};
ghost use Rattle.core_forms.specs.Mid.{body};
ghost use Rattle.core_forms.specs.Names.{binders_of};
ghost use Rattle.core_forms.specs.Table.{two, core, core_if, Turn, let_turn, core_turn};
ghost use Rattle.core_forms.specs.Rewriting.{name_turn, raw_turn};
ghost use Rattle.core_forms.specs.Code.{data_of, spelling};
ghost use Rattle.core_forms.specs.Working.{open_of, work_mid, parts_turn, MakesAs, TurnsAs};
ghost use Rattle.core_forms.specs.declared.counting.Counts.{Counts as AnyCounts};
ghost use Rattle.core_forms.specs.declared.words.Keyword.TheVariants.{If, Let};
ghost use Rattle.core_forms.specs.declared.work.Lists.TheVariants.{One};
ghost use Rattle.core_forms.specs.declared.work.Work.TheVariants.{Raw};
ghost use Rattle.expansion_steps.specs.Heads.{macros_of};
ghost use Rattle.expansion_steps.specs.Parts.{IsBehind};
ghost use Rattle.expansion_steps.specs.Turns.{plain_turn};

use crate::heads::{Head, head_of};
use crate::macros::Macros;
use crate::uses::expand_use;
use core_forms::{
    Bound, CORE_MARK, CoreExpr, Counts, ExpandErr, Keyword, Kind, Lists, Made, Node, Open, Part,
    Turned, Types, Work, binders_of, core_turn, items_of, one_part, put_in_front, raws_node,
    stacked,
};
use derived_forms::{Derived, let_star, row_of};
use marked_names::Scope;
use scheme_data::{Datum, OutOfMemory, Place, Stack, Text, has_type};
use sqlite_items::Items;
use std::alloc::Global;

/// A name where an expression stands.
fn name(at: Place, word: Text, mark: u32) -> Result<Made, ExpandErr>
    ensures { (n : AnyCounts) → MakesAs (name_turn n at word mark) result n }
{
    if mark == CORE_MARK {
        return Ok(Made::Leaf(CoreExpr::PrimEqv(at)));
    }
    if has_type(word.as_bytes()) {
        return Err(ExpandErr::Form(at));
    }
    Ok(Made::Leaf(CoreExpr::Name(at, word, mark)))
}

/// A call, which has an operator.
fn call(alloc: Global, at: Place, items: Items<Datum>) -> Result<Made, ExpandErr>
    ensures { (n : AnyCounts) → MakesAs (plain_turn n (listed at (data_of items))) result n }
{
    if items.is_empty() {
        return Err(ExpandErr::Form(at));
    }
    let forms = stacked(alloc, items)?;
    let node = raws_node(alloc, at, Kind::Call, forms)?;
    Ok(Made::Node(node))
}

/// A form whose head is no macro and no special form.
fn plain(alloc: Global, datum: Datum) -> Result<Made, ExpandErr>
    ensures { (n : AnyCounts) → MakesAs (plain_turn n (form datum)) result n }
{
    match datum {
        Datum::Sym(at, word, mark) => name(at, word, mark),
        Datum::List(at, items) => call(alloc, at, items),
        Datum::Dotted(at, _, _) => Err(ExpandErr::Form(at)),
        constant => Ok(Made::Constant(constant.place(), constant)),
    }
}

/// The two arms of a condition.
fn arms(alloc: Global, second: Open, third: Open) -> Result<Stack<Part>, OutOfMemory>
    ensures { IfOk result (λ parts. parts ≡ record { lists = One; work = Raw second } ∷ record { lists = One; work = Raw third } ∷ []) }
{
    let mut parts = Stack::new(alloc);
    push_raw(&mut parts, Lists::One, third)?;
    push_raw(&mut parts, Lists::One, second)?;
    Ok(parts)
}

/// A condition with both arms.
fn choice(
    alloc: Global,
    at: Place,
    first: Datum,
    second: Open,
    third: Open,
) -> Result<Made, ExpandErr>
    ensures { (n : AnyCounts) → MakesAs (core_turn n at If (next (form first) (next (open_of second) (next (open_of third) end)))) result n }
{
    let mut outer = arms(alloc, second, third)?;
    push_raw(&mut outer, Lists::One, Open::Datum(first))?;
    Ok(Made::Node(Node {
        at,
        kind: Kind::If,
        nesting: 1,
        outer,
        inner: Stack::new(alloc),
    }))
}

/// Puts a form in front of other parts.
pub fn push_raw(parts: &mut Stack<Part>, lists: Lists, opened: Open) -> Result<(), OutOfMemory>
    ensures { OnOk result (parts.new ≡ record { lists = lists; work = Raw opened } ∷ parts.old) }
{
    parts.push(Part {
        lists,
        work: Work::Raw(opened),
    })?;
    Ok(())
}

/// A `let` of one name over a body.
fn let_one(
    alloc: Global,
    at: Place,
    names: Items<Datum>,
    value: Datum,
    work: Work,
) -> Result<Made, ExpandErr>
    ensures { (n : AnyCounts) → (forms : Forms) → work_mid work ≡ body at forms → MakesAs (let_turn n at (binders_of true (data_of names)) (next (form value) end) forms) result n }
{
    let Some(binders) = binders_of(alloc, Types::Allowed, names.as_slice())? else {
        return Err(ExpandErr::Form(at));
    };
    let mut outer = Stack::new(alloc);
    push_raw(&mut outer, Lists::Three, Open::Datum(value))?;
    let inner = one_part(alloc, work)?;
    Ok(Made::Node(Node {
        at,
        kind: Kind::Let(binders),
        nesting: 3,
        outer,
        inner,
    }))
}

/// `(let (x) (let* (y ...) b ...))`
fn let_first(
    alloc: Global,
    at: Place,
    binding: Datum,
    bindings: Stack<Datum>,
    forms: Stack<Datum>,
) -> Result<Made, ExpandErr>
    ensures { (n : AnyCounts) → MakesAs (core_turn n at Let (next (listed at (next (form binding) end)) (next (core at (codes "let*") (next (listed at (data_of bindings)) (data_of forms))) end))) result n }
{
    let Some(mut pair) = items_of(binding) else {
        return Err(ExpandErr::Form(at));
    };
    if pair.len() != 2 {
        return Err(ExpandErr::Form(at));
    }
    let Some(value) = pair.pop() else {
        return Err(ExpandErr::Form(at));
    };
    let_one(alloc, at, pair, value, Work::LetStar(at, bindings, forms))
}

/// `(let ((t a)) (if t b (word c ...)))`
fn kept(
    alloc: Global,
    at: Place,
    bound: Bound,
    arm: Datum,
    keyword: Keyword,
    forms: Stack<Datum>,
) -> Result<Made, ExpandErr>
    ensures { (n : AnyCounts) → MakesAs (core_turn n at Let (next (listed at (next (two at (form bound.binder) (form bound.value)) end)) (next (core_if at (form bound.name) (form arm) (core at (spelling keyword) (data_of forms))) end))) result n }
{
    let Bound {
        binder,
        name,
        value,
    } = bound;
    let mut names = Items::new(alloc);
    names.push(binder)?;
    let work = Work::Choice(at, name, arm, keyword, forms);
    let_one(alloc, at, names, value, work)
}

/// The forms behind the word of a special form.
#[derive(Drop)]
pub struct Special {
    pub at: Place,
    pub forms: Stack<Datum>,
}

/// The forms behind the head of a list.
pub fn behind_head(alloc: Global, datum: Datum) -> Result<Special, OutOfMemory>
    ensures { IfOk result (λ b. IsBehind (form datum) b) }
{
    let at = datum.place();
    let Some(items) = items_of(datum) else {
        return Ok(Special {
            at,
            forms: Stack::new(alloc),
        });
    };
    let mut forms = stacked(alloc, items)?;
    drop(forms.pop());
    Ok(Special { at, forms })
}

/// A core form in the place of a form.
fn as_core(made: Result<Made, ExpandErr>) -> Result<Turned, ExpandErr>
    ensures { (t : Turn) → (n : AnyCounts) → MakesAs t made n → TurnsAs t result n }
{
    match made {
        Ok(made) => Ok(Turned::Core(made)),
        Err(e) => Err(e),
    }
}

/// What stands in the place of a form.
pub fn turn(
    alloc: Global,
    ks: &Macros,
    s: &Scope,
    n: &mut Counts,
    opened: Open,
) -> Result<Turned, ExpandErr>
    ensures { TurnsAs (raw_turn (macros_of ks.now) s.now n.old (open_of opened)) result n.new }
{
    match opened {
        Open::Datum(datum) => turn_datum(alloc, ks, s, n, datum),
        Open::Row(at, keyword, forms) => turn_row(alloc, n, at, keyword, forms),
        Open::LetStar(at, bindings, forms) => match let_star(alloc, at, bindings, forms) {
            Ok(other) => Ok(Turned::Again(other)),
            Err(e) => Err(e),
        },
        Open::LetFirst(at, first, bindings, forms) => {
            as_core(let_first(alloc, at, first, bindings, forms))
        }
        Open::Choice(at, test, arm, keyword, forms) => {
            let third = Open::Row(at, keyword, forms);
            as_core(choice(alloc, at, test, Open::Datum(arm), third))
        }
        Open::Both(at, test, forms) => {
            let second = Open::Row(at, Keyword::And, forms);
            let third = Open::Datum(Datum::Bool(at, false));
            as_core(choice(alloc, at, test, second, third))
        }
        Open::Kept(at, bound, arm, keyword, forms) => {
            as_core(kept(alloc, at, bound, arm, keyword, forms))
        }
    }
}

/// What stands in the place of a datum.
fn turn_datum(
    alloc: Global,
    ks: &Macros,
    s: &Scope,
    n: &mut Counts,
    datum: Datum,
) -> Result<Turned, ExpandErr>
    ensures { TurnsAs (raw_turn (macros_of ks.now) s.now n.old (form datum)) result n.new }
{
    match head_of(ks, s, &datum)? {
        Head::Macro(rules) => match expand_use(alloc, n, rules, &datum) {
            Ok(result) => Ok(Turned::Again(Open::Datum(result))),
            Err(e) => Err(e),
        },
        Head::Special(keyword) => {
            let Special { at, forms } = behind_head(alloc, datum)?;
            turn_row(alloc, n, at, keyword, forms)
        }
        Head::Plain => as_core(plain(alloc, datum)),
    }
}

/// What stands in the place of the word of a special form and the forms behind it.
pub fn turn_row(
    alloc: Global,
    n: &mut Counts,
    at: Place,
    keyword: Keyword,
    forms: Stack<Datum>,
) -> Result<Turned, ExpandErr>
    ensures { TurnsAs (parts_turn n.old at keyword (data_of forms)) result n.new }
{
    match row_of(alloc, n, at, keyword, forms) {
        Ok(Derived::Means(other)) => Ok(Turned::Again(other)),
        Ok(Derived::Core(forms)) => as_core(core_turn(alloc, at, keyword, forms)),
        Err(e) => Err(e),
    }
}
