// The items of `export` and `static` clauses.
ghost use Rattle.std.specs.Prelude.{◌≡◌, IfOk};
ghost use Rattle.scheme_data.specs.Forms.{form};
ghost use Rattle.scheme_data.specs.TypedViews.{typed_view};
ghost use Rattle.module_head.specs.Heads.{type_of, binder, binders, variable, prototype, inline_prototype, entry};
ghost use Rattle.module_head.specs.Shapes.{forms_of};

use crate::head::{Entry, EntryKind, Param};
use crate::shapes::{parts, place, says, symbol};
use prim_table::{Ty, type_by_name};
use scheme_data::{Datum, List, OutOfMemory, Place, Text, TypedName, typed_name};
use std::alloc::Global;

/// The type that is written behind a name.
fn written_type(name: &TypedName<'_>) -> Option<Ty>
    ensures { result ≡ type_of (typed_view name.now).ty }
{
    let word = name.ty?;
    type_by_name(word)
}

/// The name `x` or `x::t`; none where it is another datum.
pub fn binder(alloc: Global, d: &Datum) -> Result<Option<Param>, OutOfMemory>
    ensures { IfOk result (λ x. x ≡ binder (form d.now)) }
{
    let Some(name) = symbol(d) else {
        return Ok(None);
    };
    let Some(typed) = typed_name(name.as_bytes()) else {
        return Ok(None);
    };
    Ok(Some(Param {
        at: place(d),
        name: Text::from_bytes(alloc, typed.name)?,
        ty: written_type(&typed),
    }))
}

/// The names of a prototype's parameters; none where one is another datum.
fn binders(alloc: Global, ds: &[Datum]) -> Result<Option<List<Param>>, OutOfMemory>
    ensures { IfOk result (λ xs. xs ≡ binders (forms_of ds.now)) }
{
    let mut found = List::new(alloc);
    for d in ds {
        let Some(param) = binder(alloc, d)? else {
            return Ok(None);
        };
        found.push(param)?;
    }
    Ok(Some(found))
}

fn variable(alloc: Global, d: &Datum) -> Result<Option<Entry>, OutOfMemory>
    ensures { IfOk result (λ e. e ≡ variable (binder (form d.now))) }
{
    let Some(x) = binder(alloc, d)? else {
        return Ok(None);
    };
    Ok(Some(Entry {
        at: x.at,
        kind: EntryKind::Var,
        name: x.name,
        ty: x.ty,
        params: List::new(alloc),
    }))
}

fn prototype(
    alloc: Global,
    at: Place,
    kind: EntryKind,
    name: &Datum,
    params: &[Datum],
) -> Result<Option<Entry>, OutOfMemory>
    ensures { IfOk result (λ e. e ≡ prototype at kind (binder (form name.now)) (binders (forms_of params.now))) }
{
    let Some(f) = binder(alloc, name)? else {
        return Ok(None);
    };
    let Some(params) = binders(alloc, params)? else {
        return Ok(None);
    };
    Ok(Some(Entry {
        at,
        kind,
        name: f.name,
        ty: f.ty,
        params,
    }))
}

/// What stands behind the word `inline`; where that is nothing, the word is a function's name.
fn inline_prototype(
    alloc: Global,
    at: Place,
    word: &Datum,
    rest: &[Datum],
) -> Result<Option<Entry>, OutOfMemory>
    ensures { IfOk result (λ e. e ≡ inline_prototype at (form word.now) (forms_of rest.now)) }
{
    let [name, params @ ..] = rest else {
        return prototype(alloc, at, EntryKind::Fun, word, rest);
    };
    prototype(alloc, at, EntryKind::Inline, name, params)
}

/// The entry `x`, `(f x ...)` or `(inline f x ...)`; none where it is another datum.
pub fn entry(alloc: Global, d: &Datum) -> Result<Option<Entry>, OutOfMemory>
    ensures { IfOk result (λ e. e ≡ entry (form d.now)) }
{
    let Some(ds) = parts(d) else {
        return variable(alloc, d);
    };
    let [first, rest @ ..] = ds else {
        return Ok(None);
    };
    if says(first, b"inline") {
        return inline_prototype(alloc, place(d), first, rest);
    }
    prototype(alloc, place(d), EntryKind::Fun, first, rest)
}
