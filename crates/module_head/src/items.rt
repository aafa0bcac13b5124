// The items of `import` and `extern` clauses.
ghost use Rattle.std.specs.Prelude.{◌≡◌, IfOk};
ghost use Rattle.std.specs.Option.{option_copied};
ghost use Rattle.scheme_data.specs.Forms.{form};
ghost use Rattle.module_head.specs.Heads.{names_of, import_of, import_item, types, types_in, extern_item};
ghost use Rattle.module_head.specs.Shapes.{forms_of};

use crate::entries::binder;
use crate::head::{Extern, Import};
use crate::shapes::{parts, place, string, symbol};
use prim_table::{Ty, type_by_name};
use scheme_data::{Datum, List, OutOfMemory, Place, TextList};
use std::alloc::Global;

/// The names of symbols; none where one is another datum.
fn names(alloc: Global, ds: &[Datum]) -> Result<Option<TextList>, OutOfMemory>
    ensures { IfOk result (λ xs. xs ≡ names_of (forms_of ds.now)) }
{
    let mut found = TextList::new(alloc);
    for d in ds {
        let Some(name) = symbol(d) else {
            return Ok(None);
        };
        found.push(name.copy(alloc)?)?;
    }
    Ok(Some(found))
}

/// Names, and the module behind them; none where one is no symbol, or where there is no name.
fn listed_import(alloc: Global, at: Place, ds: &[Datum]) -> Result<Option<Import>, OutOfMemory>
    ensures { IfOk result (λ i. i ≡ import_of at (names_of (forms_of ds.now))) }
{
    let Some((last, front)) = ds.split_last() else {
        return Ok(None);
    };
    if front.is_empty() {
        return Ok(None);
    }
    let Some(module_name) = symbol(last) else {
        return Ok(None);
    };
    let Some(names) = names(alloc, front)? else {
        return Ok(None);
    };
    Ok(Some(Import {
        at,
        module_name: module_name.copy(alloc)?,
        names: Some(names),
    }))
}

/// The item `MODULE` or `(name ... MODULE)`; none where it is another datum.
pub fn import_item(alloc: Global, d: &Datum) -> Result<Option<Import>, OutOfMemory>
    ensures { IfOk result (λ i. i ≡ import_item (form d.now)) }
{
    if let Some(ds) = parts(d) {
        return listed_import(alloc, place(d), ds);
    }
    let Some(module_name) = symbol(d) else {
        return Ok(None);
    };
    Ok(Some(Import {
        at: place(d),
        module_name: module_name.copy(alloc)?,
        names: None,
    }))
}

/// The types that these symbols name; none where one names no type.
fn types(alloc: Global, ds: &[Datum]) -> Result<Option<List<Ty>>, OutOfMemory>
    ensures { IfOk result (λ ts. ts ≡ types (forms_of ds.now)) }
{
    let mut found = List::new(alloc);
    for d in ds {
        let Some(word) = symbol(d) else {
            return Ok(None);
        };
        let Some(ty) = type_by_name(word.as_bytes()) else {
            return Ok(None);
        };
        found.push(ty)?;
    }
    Ok(Some(found))
}

fn types_in(alloc: Global, d: &Datum) -> Result<Option<List<Ty>>, OutOfMemory>
    ensures { IfOk result (λ ts. ts ≡ types_in (form d.now)) }
{
    let Some(ds) = parts(d) else {
        return Ok(None);
    };
    types(alloc, ds)
}

/// The item `(f::t (t ...) "c_name")`; none where it is another datum.
pub fn extern_item(alloc: Global, d: &Datum) -> Result<Option<Extern>, OutOfMemory>
    ensures { IfOk result (λ e. e ≡ extern_item (form d.now)) }
{
    let Some(ds) = parts(d) else {
        return Ok(None);
    };
    if ds.len() != 3 {
        return Ok(None);
    }
    let Some(c_name) = string(&ds[2]) else {
        return Ok(None);
    };
    let Some(f) = binder(alloc, &ds[0])? else {
        return Ok(None);
    };
    let Some(params) = types_in(alloc, &ds[1])? else {
        return Ok(None);
    };
    Ok(Some(Extern {
        at: place(d),
        name: f.name,
        ty: f.ty,
        params,
        c_name: c_name.copy(alloc)?,
    }))
}
