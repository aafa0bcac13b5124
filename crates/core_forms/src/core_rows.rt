// The rows of the table of core forms (R5RS section 4.1).

ghost use Rattle.std.specs.Prelude.{◌≡◌, List, [], ◌∷◌, IfOk, OnOk};
ghost use Rattle.core_forms.specs.Mid.{own_nesting, node as core_node, none, part, body as body_of, binding as let_head, recursive as letrec_head, Parts};
ghost use Rattle.core_forms.specs.Table.{raws, lambdas, becomes, function_turn, exit_turn, core_turn};
ghost use Rattle.core_forms.specs.Code.{may_have_types, data_of};
ghost use Rattle.core_forms.specs.Working.{lists_of, parts_then, kind_head, kind_binders, IsRaws, MakesAs};
ghost use Rattle.core_forms.specs.Shapes.{ScopedAs, PartsAs, binding_nesting};
ghost use Rattle.core_forms.specs.declared.core_form.Binder.{Binder as AnyBinder};
ghost use Rattle.core_forms.specs.declared.work.Lists.TheVariants.{One};
ghost use Rattle.core_forms.specs.declared.counting.Counts.{Counts as AnyCounts};
ghost use Rattle.core_forms.specs.declared.words.Keyword.TheVariants.{Quote, Lambda, If, Set, Begin, Let, Letrec, BindExit, UnwindProtect};

use crate::binders::{Bindings, Types, binder_of, binders_of, bindings_of};
use crate::build::stacked;
use crate::core_form::Binder;
use crate::error::ExpandErr;
use crate::words::Keyword;
use crate::work::{Kind, Lists, Made, Node, Open, Part, Work};
use scheme_data::{Datum, OutOfMemory, Place, Stack, has_type};
use sqlite_items::Items;
use std::alloc::Global;

/// Forms as parts that stand in so many lists.
fn raws(alloc: Global, lists: Lists, forms: Stack<Datum>) -> Result<Stack<Part>, OutOfMemory>
    ensures { IfOk result (λ ps. (qs : Parts) → parts_then [] ps qs ≡ raws (lists_of lists) (data_of forms) qs) }
{
    let mut forms = forms.into_list().into_stack();
    let mut parts = Stack::new(alloc);
    while let Some(form) = forms.pop() {
        parts.push(Part {
            lists,
            work: Work::Raw(Open::Datum(form)),
        })?;
    }
    Ok(parts)
}

/// A core form whose parts are forms, one list deep.
pub fn raws_node(
    alloc: Global,
    at: Place,
    kind: Kind,
    forms: Stack<Datum>,
) -> Result<Node, OutOfMemory>
    ensures { IfOk result (λ n. IsRaws at kind forms n) }
{
    Ok(Node {
        at,
        kind,
        nesting: 1,
        outer: raws(alloc, Lists::One, forms)?,
        inner: Stack::new(alloc),
    })
}

/// The same, where no list of its own stands in it.
fn node(alloc: Global, at: Place, kind: Kind, forms: Stack<Datum>) -> Result<Made, ExpandErr>
    requires flat { own_nesting (kind_head kind) ≡ 0 }
    requires some { forms ≡ [] → ⊥ }
    ensures { (n : AnyCounts) → MakesAs (becomes n (core_node at (kind_head kind) (raws 1 (data_of forms) none))) result n }
{
    Ok(Made::Node(raws_node(alloc, at, kind, forms)?))
}

/// A part that is a body.
pub fn one_part(alloc: Global, work: Work) -> Result<Stack<Part>, OutOfMemory>
    ensures { IfOk result (λ ps. ps ≡ record { lists = One; work = work } ∷ []) }
{
    let mut parts = Stack::new(alloc);
    parts.push(Part {
        lists: Lists::One,
        work,
    })?;
    Ok(parts)
}

/// A core form whose only part is a body within its names.
fn body_node(alloc: Global, at: Place, kind: Kind, body: Stack<Datum>) -> Result<Made, ExpandErr>
    requires { own_nesting (kind_head kind) ≡ 2 }
    ensures { (n : AnyCounts) → MakesAs (becomes n (core_node at (kind_head kind) (part 1 (kind_binders kind) (body_of at (data_of body)) none))) result n }
{
    Ok(Made::Node(Node {
        at,
        kind,
        nesting: 2,
        outer: Stack::new(alloc),
        inner: one_part(alloc, Work::Body(at, body))?,
    }))
}

fn quote(at: Place, forms: Stack<Datum>) -> Result<Made, ExpandErr>
    ensures { (n : AnyCounts) → MakesAs (core_turn n at Quote (data_of forms)) result n }
{
    let mut forms = forms;
    if forms.len() != 1 {
        return Err(ExpandErr::Form(at));
    }
    match forms.pop() {
        Some(datum) => Ok(Made::Quoted(at, datum)),
        None => Err(ExpandErr::Form(at)),
    }
}

/// A condition, with one arm or both.
fn branch(alloc: Global, at: Place, forms: Stack<Datum>) -> Result<Made, ExpandErr>
    ensures { (n : AnyCounts) → MakesAs (core_turn n at If (data_of forms)) result n }
{
    if forms.len() < 2 {
        return Err(ExpandErr::Form(at));
    }
    if forms.len() > 3 {
        return Err(ExpandErr::Form(at));
    }
    node(alloc, at, Kind::If, forms)
}

fn set(alloc: Global, at: Place, forms: Stack<Datum>) -> Result<Made, ExpandErr>
    ensures { (n : AnyCounts) → MakesAs (core_turn n at Set (data_of forms)) result n }
{
    let mut forms = forms;
    let Some(Datum::Sym(_, name, mark)) = forms.pop() else {
        return Err(ExpandErr::Form(at));
    };
    if forms.len() != 1 {
        return Err(ExpandErr::Form(at));
    }
    if has_type(name.as_bytes()) {
        return Err(ExpandErr::Form(at));
    }
    node(alloc, at, Kind::Set(name, mark), forms)
}

fn sequence(alloc: Global, at: Place, forms: Stack<Datum>) -> Result<Made, ExpandErr>
    ensures { (n : AnyCounts) → MakesAs (core_turn n at Begin (data_of forms)) result n }
{
    if forms.is_empty() {
        return Err(ExpandErr::Form(at));
    }
    node(alloc, at, Kind::Begin, forms)
}

/// A form that is protected, and those that follow it.
fn protection(alloc: Global, at: Place, forms: Stack<Datum>) -> Result<Made, ExpandErr>
    ensures { (n : AnyCounts) → MakesAs (core_turn n at UnwindProtect (data_of forms)) result n }
{
    if forms.len() < 2 {
        return Err(ExpandErr::Form(at));
    }
    node(alloc, at, Kind::UnwindProtect, forms)
}

/// A list of names or bindings, and the forms of the body behind it.
#[derive(Drop)]
struct Scoped {
    list: Items<Datum>,
    body: Stack<Datum>,
}

/// A list and a body behind it, where both are there.
fn scope_of(forms: Stack<Datum>) -> Option<Scoped>
    ensures { ScopedAs (data_of forms) result }
{
    let mut body = forms;
    let Some(Datum::List(_, list)) = body.pop() else {
        return None;
    };
    if body.is_empty() {
        return None;
    }
    Some(Scoped { list, body })
}

fn lambda(alloc: Global, at: Place, forms: Stack<Datum>) -> Result<Made, ExpandErr>
    ensures { (n : AnyCounts) → MakesAs (core_turn n at Lambda (data_of forms)) result n }
{
    let Some(Scoped { list, body }) = scope_of(forms) else {
        return Err(ExpandErr::Form(at));
    };
    let binders = binders_of(alloc, Types::Allowed, list.as_slice())?;
    function_node(alloc, at, binders, body)
}

/// A function of these names, where they are names.
fn function_node(
    alloc: Global,
    at: Place,
    binders: Option<Items<Binder>>,
    body: Stack<Datum>,
) -> Result<Made, ExpandErr>
    ensures { (n : AnyCounts) → MakesAs (function_turn n at binders (data_of body)) result n }
{
    match binders {
        Some(binders) => body_node(alloc, at, Kind::Lambda(binders), body),
        None => Err(ExpandErr::Form(at)),
    }
}

fn exit(alloc: Global, at: Place, forms: Stack<Datum>) -> Result<Made, ExpandErr>
    ensures { (n : AnyCounts) → MakesAs (core_turn n at BindExit (data_of forms)) result n }
{
    let Some(Scoped { mut list, body }) = scope_of(forms) else {
        return Err(ExpandErr::Form(at));
    };
    let Some(name) = list.pop() else {
        return Err(ExpandErr::Form(at));
    };
    if !list.is_empty() {
        return Err(ExpandErr::Form(at));
    }
    let binder = binder_of(alloc, Types::Refused, &name)?;
    exit_node(alloc, at, binder, body)
}

/// An exit of this name, where it is a name.
fn exit_node(
    alloc: Global,
    at: Place,
    binder: Option<Binder>,
    body: Stack<Datum>,
) -> Result<Made, ExpandErr>
    ensures { (n : AnyCounts) → MakesAs (exit_turn n at binder (data_of body)) result n }
{
    match binder {
        Some(binder) => body_node(alloc, at, Kind::BindExit(binder), body),
        None => Err(ExpandErr::Form(at)),
    }
}

/// The names and the values of bindings.
#[derive(Drop)]
struct LetParts {
    binders: Items<Binder>,
    values: Items<Datum>,
}

/// The names and the values of bindings, where these are well formed.
fn let_parts(
    alloc: Global,
    types: Types,
    list: Items<Datum>,
) -> Result<Option<LetParts>, OutOfMemory>
    ensures { IfOk result (λ p. PartsAs (may_have_types types) (data_of list) p) }
{
    let Some(sides) = bindings_of(alloc, stacked(alloc, list)?)? else {
        return Ok(None);
    };
    let Bindings { names, values } = sides;
    let Some(binders) = binders_of(alloc, types, names.as_slice())? else {
        return Ok(None);
    };
    Ok(Some(LetParts { binders, values }))
}

/// How deep lists nest in bindings: a value stands in three.
fn nesting_of(values: &Items<Datum>) -> u32
    ensures { result ≡ binding_nesting values.now }
{
    if values.is_empty() { 2 } else { 3 }
}

fn binding(alloc: Global, at: Place, forms: Stack<Datum>) -> Result<Made, ExpandErr>
    ensures { (n : AnyCounts) → MakesAs (core_turn n at Let (data_of forms)) result n }
{
    let Some(Scoped { list, body }) = scope_of(forms) else {
        return Err(ExpandErr::Form(at));
    };
    let Some(LetParts { binders, values }) = let_parts(alloc, Types::Allowed, list)? else {
        return Err(ExpandErr::Form(at));
    };
    let_node(alloc, at, binders, values, body)
}

/// The core form of a `let`.
fn let_node(
    alloc: Global,
    at: Place,
    binders: Items<Binder>,
    values: Items<Datum>,
    body: Stack<Datum>,
) -> Result<Made, ExpandErr>
    ensures { (n : AnyCounts) → MakesAs (becomes n (core_node at (let_head binders) (raws 3 (data_of values) (part 1 binders (body_of at (data_of body)) none)))) result n }
{
    Ok(Made::Node(Node {
        at,
        kind: Kind::Let(binders),
        nesting: nesting_of(&values),
        outer: raws(alloc, Lists::Three, stacked(alloc, values)?)?,
        inner: one_part(alloc, Work::Body(at, body))?,
    }))
}

fn recursion(alloc: Global, at: Place, forms: Stack<Datum>) -> Result<Made, ExpandErr>
    ensures { (n : AnyCounts) → MakesAs (core_turn n at Letrec (data_of forms)) result n }
{
    let Some(Scoped { list, body }) = scope_of(forms) else {
        return Err(ExpandErr::Form(at));
    };
    let Some(LetParts { binders, values }) = let_parts(alloc, Types::Refused, list)? else {
        return Err(ExpandErr::Form(at));
    };
    letrec_node(alloc, at, binders, values, body)
}

/// The core form of a `letrec`.
fn letrec_node(
    alloc: Global,
    at: Place,
    binders: Items<Binder>,
    values: Items<Datum>,
    body: Stack<Datum>,
) -> Result<Made, ExpandErr>
    ensures { (n : AnyCounts) → MakesAs (becomes n (core_node at (letrec_head binders) (lambdas at binders (data_of values) (part 1 binders (body_of at (data_of body)) none)))) result n }
{
    let nesting = nesting_of(&values);
    let mut inner = one_part(alloc, Work::Body(at, body))?;
    put_lambdas(&mut inner, at, values)?;
    Ok(Made::Node(Node {
        at,
        kind: Kind::Letrec(binders),
        nesting,
        outer: Stack::new(alloc),
        inner,
    }))
}

/// Puts the values of a `letrec` in front of its body.
fn put_lambdas(parts: &mut Stack<Part>, at: Place, values: Items<Datum>) -> Result<(), OutOfMemory>
    ensures { (xs : List AnyBinder) → (qs : Parts) → OnOk result (parts_then xs parts.new qs ≡ lambdas at xs (data_of values) (parts_then xs parts.old qs)) }
{
    let mut values = values;
    while let Some(value) = values.pop() {
        parts.push(Part {
            lists: Lists::Three,
            work: Work::LambdaForm(at, value),
        })?;
    }
    Ok(())
}

/// A core form of this word, for the forms behind it.
pub fn core_turn(
    alloc: Global,
    at: Place,
    keyword: Keyword,
    forms: Stack<Datum>,
) -> Result<Made, ExpandErr>
    ensures { (n : AnyCounts) → MakesAs (core_turn n at keyword (data_of forms)) result n }
{
    match keyword {
        Keyword::Quote => quote(at, forms),
        Keyword::Lambda => lambda(alloc, at, forms),
        Keyword::If => branch(alloc, at, forms),
        Keyword::Set => set(alloc, at, forms),
        Keyword::Begin => sequence(alloc, at, forms),
        Keyword::Let => binding(alloc, at, forms),
        Keyword::Letrec => recursion(alloc, at, forms),
        Keyword::BindExit => exit(alloc, at, forms),
        Keyword::UnwindProtect => protection(alloc, at, forms),
        Keyword::LetStar
        | Keyword::Cond
        | Keyword::Case
        | Keyword::Clauses
        | Keyword::And
        | Keyword::Or
        | Keyword::When
        | Keyword::Unless
        | Keyword::Do
        | Keyword::Define
        | Keyword::DefineInline
        | Keyword::DefineSyntax => Err(ExpandErr::Form(at)),
    }
}
