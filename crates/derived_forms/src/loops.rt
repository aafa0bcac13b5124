// The named `let` and `do` (R5RS section 4.2.4).

ghost use Rattle.std.specs.Prelude.{◌≡◌, ◌+◌, ◌++◌, [], ◌∷◌, true, is_some, codes, IfOk, OnOk};
ghost use Rattle.std.specs.Option.{option_map};
ghost use Rattle.scheme_data.specs.Forms.{form, symbol, join, listed, end, next};
ghost use Rattle.core_forms.specs.Names.{new_name, new_names, with_names, pairs_of, binders_of};
ghost use Rattle.core_forms.specs.Table.{derived, two, core, core_if, core_begin, core_loop, results, count};
ghost use Rattle.core_forms.specs.Code.{data_of, OkOrMemory};
ghost use Rattle.core_forms.specs.Working.{open_of, MeansAs};
ghost use Rattle.derived_forms.specs.Rows.{NamedLets};
ghost use Rattle.derived_forms.specs.LoopViews.{is_typed, let_parts, let_view, SidesAs, variable_view, bare_name, step_or, variable_of, columns_view, columns_of, do_parts, do_view};
ghost use Rattle.core_forms.specs.declared.words.Keyword.TheVariants.{Let, Do};

use core_forms::{
    Bindings, Counts, ExpandErr, Keyword, Open, Types, binders_of, bindings_of, core, items_of,
    listed, new_name, stacked, sure, two,
};
use scheme_data::{Datum, OutOfMemory, Place, Stack, Text, has_type, typed_name};
use sqlite_items::Items;
use std::alloc::Global;

/// A loop: its name, the variables with their first values, and what it does.
#[derive(Drop)]
struct Loop {
    name: Datum,
    variables: Items<Datum>,
    values: Items<Datum>,
    body: Items<Datum>,
}

/// New names, and bindings of them to values.
#[derive(Drop)]
struct NewNames {
    names: Items<Datum>,
    bindings: Items<Datum>,
}

impl NewNames {
    /// A new name for one more value.
    fn take(
        &mut self,
        alloc: Global,
        n: &mut Counts,
        at: Place,
        value: Datum,
    ) -> Result<(), ExpandErr>
        ensures named { OkOrMemory result (λ _. data_of self.new.names ≡ join (data_of self.old.names) (next (new_name at n.old 0) end)) }
        ensures bound { OkOrMemory result (λ _. data_of self.new.bindings ≡ join (data_of self.old.bindings) (next (two at (new_name at n.old 0) (form value)) end)) }
        ensures counted { OkOrMemory result (λ _. n.new ≡ with_names n.old 1) }
    {
        let mut pair = Stack::new(alloc);
        pair.push(value)?;
        let mark = n.take_names(1)?;
        self.names.push(new_name(alloc, at, mark)?)?;
        pair.push(new_name(alloc, at, mark)?)?;
        let pair = listed(alloc, pair)?;
        self.bindings.push(Datum::List(at, pair))?;
        Ok(())
    }
}

/// A new name for each value.
fn new_names(
    alloc: Global,
    n: &mut Counts,
    at: Place,
    values: Items<Datum>,
) -> Result<NewNames, ExpandErr>
    ensures named { OkOrMemory result (λ made. data_of made.names ≡ new_names at n.old 0 (data_of values)) }
    ensures bound { OkOrMemory result (λ made. data_of made.bindings ≡ pairs_of at (new_names at n.old 0 (data_of values)) (data_of values)) }
    ensures counted { OkOrMemory result (λ _. n.new ≡ with_names n.old (count (data_of values))) }
{
    let mut values = stacked(alloc, values)?;
    let mut made = NewNames {
        names: Items::new(alloc),
        bindings: Items::new(alloc),
    };
    while let Some(value) = values.pop() {
        made.take(alloc, n, at, value)?;
    }
    Ok(made)
}

/// `(letrec ((f (lambda (x ...) b ...))) (f t ...))`
fn letrec_of(
    alloc: Global,
    at: Place,
    binder: Datum,
    lambda: Datum,
    call: Datum,
) -> Result<Datum, OutOfMemory>
    ensures { IfOk result (λ d. form d ≡ core at (codes "letrec") (next (listed at (next (two at (form binder) (form lambda)) end)) (next (form call) end))) }
{
    let mut bindings = Items::new(alloc);
    bindings.push(two(alloc, at, binder, lambda)?)?;
    let mut parts = Items::new(alloc);
    parts.push(Datum::List(at, bindings))?;
    parts.push(call)?;
    core(alloc, at, b"letrec", parts)
}

/// `(lambda (x ...) b ...)`
fn lambda_of(
    alloc: Global,
    at: Place,
    variables: Items<Datum>,
    body: Items<Datum>,
) -> Result<Datum, OutOfMemory>
    ensures { IfOk result (λ d. form d ≡ core at (codes "lambda") (next (listed at (data_of variables)) (data_of body))) }
{
    let mut parts = Items::new(alloc);
    parts.push(Datum::List(at, variables))?;
    parts.append(body)?;
    core(alloc, at, b"lambda", parts)
}

/// `(f t ...)`
fn call_of(
    alloc: Global,
    at: Place,
    name: Datum,
    arguments: Items<Datum>,
) -> Result<Datum, OutOfMemory>
    ensures { IfOk result (λ d. form d ≡ listed at (next (form name) (data_of arguments))) }
{
    let mut call = Items::new(alloc);
    call.push(name)?;
    call.append(arguments)?;
    Ok(Datum::List(at, call))
}

/// `(let ((t e) ...) (letrec ((f (lambda (x ...) b ...))) (f t ...)))`
fn loop_form(alloc: Global, n: &mut Counts, at: Place, made: Loop) -> Result<Open, ExpandErr>
    ensures meant { OkOrMemory result (λ o. open_of o ≡ core_loop at (form made.name) (new_names at n.old 0 (data_of made.values)) (data_of made.values) (data_of made.variables) (data_of made.body)) }
    ensures counted { OkOrMemory result (λ _. n.new ≡ with_names n.old (count (data_of made.values))) }
{
    let Loop {
        name,
        variables,
        values,
        body,
    } = made;
    let NewNames { names, bindings } = new_names(alloc, n, at, values)?;
    let lambda = lambda_of(alloc, at, variables, body)?;
    let binder = name.copy(alloc)?;
    let call = call_of(alloc, at, name, names)?;
    let letrec = letrec_of(alloc, at, binder, lambda, call)?;
    let mut behind = Stack::new(alloc);
    behind.push(letrec)?;
    behind.push(Datum::List(at, bindings))?;
    Ok(Open::Row(at, Keyword::Let, behind))
}

/// Whether a symbol's name has a type.
fn is_typed(datum: &Datum) -> bool
    ensures { result ≡ is_typed (form datum.now) }
{
    match datum {
        Datum::Sym(_, name, _) => has_type(name.as_bytes()),
        _ => false,
    }
}

/// The parts of a `let` with a name: the name, the bindings and the body.
#[derive(Drop)]
struct LetParts {
    name: Datum,
    bindings: Items<Datum>,
    body: Stack<Datum>,
}

/// The parts, where the name has no type, the bindings are a list, and the body isn't empty.
fn let_parts(forms: Stack<Datum>) -> Option<LetParts>
    ensures { option_map let_view result ≡ let_parts (data_of forms) }
{
    let mut forms = forms;
    let name = forms.pop()?;
    let second = forms.pop()?;
    let bindings = items_of(second)?;
    if forms.is_empty() {
        return None;
    }
    if is_typed(&name) {
        return None;
    }
    Some(LetParts {
        name,
        bindings,
        body: forms,
    })
}

/// Whether these are names, and distinct.
fn are_distinct(alloc: Global, names: &[Datum]) -> Result<bool, OutOfMemory>
    ensures { IfOk result (λ b. b ≡ is_some (binders_of true (data_of names.now))) }
{
    let binders = binders_of(alloc, Types::Allowed, names)?;
    Ok(binders.is_some())
}

/// The names and values of bindings, where all are bindings and the names distinct.
fn sides_of(alloc: Global, bindings: Items<Datum>) -> Result<Option<Bindings>, OutOfMemory>
    ensures { IfOk result (λ b. SidesAs (data_of bindings) b) }
{
    let bindings = stacked(alloc, bindings)?;
    let Some(sides) = bindings_of(alloc, bindings)? else {
        return Ok(None);
    };
    if !are_distinct(alloc, sides.names.as_slice())? {
        return Ok(None);
    }
    Ok(Some(sides))
}

/// A `let` with a name.
pub(crate) fn named_let(
    alloc: Global,
    n: &mut Counts,
    at: Place,
    forms: Stack<Datum>,
) -> Result<Open, ExpandErr>
    ensures { NamedLets (derived n.old at Let (data_of forms)) at forms n.old result n.new }
{
    let Some(parts) = let_parts(forms) else {
        return Err(ExpandErr::Form(at));
    };
    let LetParts {
        name,
        bindings,
        body,
    } = parts;
    let Some(sides) = sides_of(alloc, bindings)? else {
        return Err(ExpandErr::Form(at));
    };
    let body = listed(alloc, body)?;
    let made = Loop {
        name,
        variables: sides.names,
        values: sides.values,
        body,
    };
    let open = loop_form(alloc, n, at, made)?;
    Ok(open)
}

/// A variable of a `do`: its name, its first value, and what it becomes.
#[derive(Drop)]
struct Variable {
    name: Datum,
    value: Datum,
    step: Datum,
}

/// The variables of a `do`: names, first values, and what they become.
#[derive(Drop)]
struct Variables {
    names: Items<Datum>,
    values: Items<Datum>,
    steps: Items<Datum>,
}

/// A name without its type; none where it can't be bound.
fn untyped(alloc: Global, datum: &Datum) -> Result<Option<Datum>, OutOfMemory>
    ensures { IfOk result (λ d. option_map form d ≡ bare_name (form datum.now)) }
{
    match datum {
        Datum::Sym(at, name, mark) => match typed_name(name.as_bytes()) {
            Some(typed) => {
                let name = Text::from_bytes(alloc, typed.name)?;
                Ok(Some(Datum::Sym(*at, name, *mark)))
            }
            None => Ok(None),
        },
        _ => Ok(None),
    }
}

/// What a variable becomes: where nothing is said, itself.
fn step_of(alloc: Global, name: &Datum, step: Option<Datum>) -> Result<Option<Datum>, OutOfMemory>
    ensures { IfOk result (λ s. option_map form s ≡ step_or (option_map form step) (form name.now)) }
{
    match step {
        Some(step) => Ok(Some(step)),
        None => untyped(alloc, name),
    }
}

/// `(x i s)` or `(x i)`, where it is one.
fn variable_of(alloc: Global, variable: Datum) -> Result<Option<Variable>, OutOfMemory>
    ensures { IfOk result (λ v. option_map variable_view v ≡ variable_of (form variable)) }
{
    let Some(items) = items_of(variable) else {
        return Ok(None);
    };
    let mut items = stacked(alloc, items)?;
    let Some(name) = items.pop() else {
        return Ok(None);
    };
    let Some(value) = items.pop() else {
        return Ok(None);
    };
    let step = items.pop();
    if !items.is_empty() {
        return Ok(None);
    }
    let Some(step) = step_of(alloc, &name, step)? else {
        return Ok(None);
    };
    Ok(Some(Variable { name, value, step }))
}

impl Variables {
    /// One more variable.
    fn take(&mut self, variable: Variable) -> Result<(), OutOfMemory>
        ensures named { OnOk result (data_of self.new.names ≡ join (data_of self.old.names) (next (form variable.name) end)) }
        ensures valued { OnOk result (data_of self.new.values ≡ join (data_of self.old.values) (next (form variable.value) end)) }
        ensures stepped { OnOk result (data_of self.new.steps ≡ join (data_of self.old.steps) (next (form variable.step) end)) }
    {
        let Variable { name, value, step } = variable;
        self.names.push(name)?;
        self.values.push(value)?;
        self.steps.push(step)?;
        Ok(())
    }
}

/// The variables, where all are.
fn variables_of(alloc: Global, header: Stack<Datum>) -> Result<Option<Variables>, OutOfMemory>
    ensures { IfOk result (λ v. option_map columns_view v ≡ columns_of (data_of header)) }
{
    let mut header = header;
    let mut variables = Variables {
        names: Items::new(alloc),
        values: Items::new(alloc),
        steps: Items::new(alloc),
    };
    while let Some(datum) = header.pop() {
        let Some(variable) = variable_of(alloc, datum)? else {
            return Ok(None);
        };
        variables.take(variable)?;
    }
    Ok(Some(variables))
}

/// The value of a `do` whose test holds.
fn results(alloc: Global, at: Place, items: Items<Datum>) -> Result<Datum, OutOfMemory>
    ensures { IfOk result (λ d. form d ≡ results at (data_of items)) }
{
    if items.is_empty() {
        return Ok(Datum::Unspec(at));
    }
    core(alloc, at, b"begin", items)
}

/// The parts of a `do`: its variables, its test, the forms behind the test, and the body.
#[derive(Drop)]
struct DoParts {
    header: Items<Datum>,
    test: Datum,
    ending: Items<Datum>,
    body: Stack<Datum>,
}

/// The parts, where the first two forms are lists and the second isn't empty.
fn do_parts(forms: Stack<Datum>) -> Option<DoParts>
    ensures { option_map do_view result ≡ do_parts (data_of forms) }
{
    let mut forms = forms;
    let first = forms.pop()?;
    let header = items_of(first)?;
    let second = forms.pop()?;
    let mut ending = items_of(second)?;
    if ending.is_empty() {
        return None;
    }
    let test = ending.remove(0);
    Some(DoParts {
        header,
        test,
        ending,
        body: forms,
    })
}

/// `(begin b ... (t s ...))`
fn once_more(
    alloc: Global,
    at: Place,
    body: Items<Datum>,
    again: Datum,
) -> Result<Datum, OutOfMemory>
    ensures { IfOk result (λ d. form d ≡ core_begin at (join (data_of body) (next (form again) end))) }
{
    let mut body = body;
    body.push(again)?;
    core(alloc, at, b"begin", body)
}

/// `(if e (begin r ...) (begin b ... (t s ...)))`
fn turn_of_loop(
    alloc: Global,
    at: Place,
    test: Datum,
    ending: Datum,
    further: Datum,
) -> Result<Items<Datum>, OutOfMemory>
    ensures { IfOk result (λ ds. data_of ds ≡ next (core_if at (form test) (form ending) (form further)) end) }
{
    let mut parts = Items::new(alloc);
    parts.push(test)?;
    parts.push(ending)?;
    parts.push(further)?;
    let mut turn = Items::new(alloc);
    turn.push(core(alloc, at, b"if", parts)?)?;
    Ok(turn)
}

/// A `do`.
pub(crate) fn repeated(
    alloc: Global,
    n: &mut Counts,
    at: Place,
    forms: Stack<Datum>,
) -> Result<Open, ExpandErr>
    ensures { MeansAs (derived n.old at Do (data_of forms)) at n.old result n.new }
{
    let Some(parts) = do_parts(forms) else {
        return Err(ExpandErr::Form(at));
    };
    let DoParts {
        header,
        test,
        ending,
        body,
    } = parts;
    let Some(variables) = variables_of(alloc, stacked(alloc, header)?)? else {
        return Err(ExpandErr::Form(at));
    };
    if !are_distinct(alloc, variables.names.as_slice())? {
        return Err(ExpandErr::Form(at));
    }
    let body = listed(alloc, body)?;
    let ending = results(alloc, at, ending)?;
    let open = loop_of_do(alloc, n, at, variables, test, ending, body)?;
    Ok(open)
}

/// A loop with a new name.
fn loop_of_do(
    alloc: Global,
    n: &mut Counts,
    at: Place,
    variables: Variables,
    test: Datum,
    ending: Datum,
    body: Items<Datum>,
) -> Result<Open, ExpandErr>
    ensures meant { OkOrMemory result (λ o. open_of o ≡ core_loop at (new_name at n.old 0) (new_names at n.old 1 (data_of variables.values)) (data_of variables.values) (data_of variables.names) (next (core_if at (form test) (form ending) (core_begin at (join (data_of body) (next (listed at (next (new_name at n.old 0) (data_of variables.steps))) end)))) end)) }
    ensures counted { OkOrMemory result (λ _. n.new ≡ with_names n.old (1 + count (data_of variables.values))) }
{
    let mark = n.take_names(1)?;
    let made = loop_by(alloc, at, mark, variables, test, ending, body)?;
    let open = loop_form(alloc, n, at, made)?;
    Ok(open)
}

/// The loop whose name has this mark.
fn loop_by(
    alloc: Global,
    at: Place,
    mark: u32,
    variables: Variables,
    test: Datum,
    ending: Datum,
    body: Items<Datum>,
) -> Result<Loop, OutOfMemory>
    ensures named { IfOk result (λ made. form made.name ≡ symbol at (codes "t") mark) }
    ensures over { IfOk result (λ made. made.variables ≡ variables.names) }
    ensures from { IfOk result (λ made. made.values ≡ variables.values) }
    ensures does { IfOk result (λ made. data_of made.body ≡ next (core_if at (form test) (form ending) (core_begin at (join (data_of body) (next (listed at (next (symbol at (codes "t") mark) (data_of variables.steps))) end)))) end) }
{
    let Variables {
        names,
        values,
        steps,
    } = variables;
    let again = call_of(alloc, at, new_name(alloc, at, mark)?, steps)?;
    let further = once_more(alloc, at, body, again)?;
    let turn = turn_of_loop(alloc, at, test, ending, further)?;
    let name = new_name(alloc, at, mark)?;
    Ok(Loop {
        name,
        variables: names,
        values,
        body: turn,
    })
}
