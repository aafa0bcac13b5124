// The items of `import` and `export` clauses.
ghost use Rattle.std.specs.Prelude.{◌≡◌, IfOk};
ghost use Rattle.std.specs.Option.{option_map, is_some};
ghost use Rattle.scheme_data.specs.Data.{plain, plain_all};
ghost use Rattle.resolver.specs.BuiltHeads.{names_of, import_item, export_item};
ghost use Rattle.resolver.specs.Trees.{import_tree, export_tree};

use crate::built_head::{Export, Import};
use crate::shapes::{name_is, parts, untyped_name};
use scheme_data::{Datum, OutOfMemory, TextList};
use std::alloc::Global;

/// The names of symbols; none where a datum is no symbol, or its name has a type.
fn names(alloc: Global, ds: &[Datum]) -> Result<Option<TextList>, OutOfMemory>
    ensures { IfOk result (λ xs. xs ≡ names_of (plain_all ds.now)) }
{
    let mut found = TextList::new(alloc);
    for d in ds {
        let Some(name) = untyped_name(d) else {
            return Ok(None);
        };
        found.push(name.copy(alloc)?)?;
    }
    Ok(Some(found))
}

/// Whether each datum is a symbol whose name has no type.
fn are_names(ds: &[Datum]) -> bool
    ensures { result ≡ is_some (names_of (plain_all ds.now)) }
{
    for d in ds {
        if untyped_name(d).is_none() {
            return false;
        }
    }
    true
}

/// The item `(name ... MODULE)`; none where it is another datum.
pub fn import_item(alloc: Global, d: &Datum) -> Result<Option<Import>, OutOfMemory>
    ensures { IfOk result (λ i. option_map import_tree i ≡ import_item (plain d.now)) }
{
    let Some(ds) = parts(d) else {
        return Ok(None);
    };
    let Some((last, front)) = ds.split_last() else {
        return Ok(None);
    };
    if front.is_empty() {
        return Ok(None);
    }
    let Some(module_name) = untyped_name(last) else {
        return Ok(None);
    };
    let Some(names) = names(alloc, front)? else {
        return Ok(None);
    };
    Ok(Some(Import {
        module_name: module_name.copy(alloc)?,
        names,
    }))
}

/// The item `(f x ...)`; none where it is another datum.
pub fn export_item(alloc: Global, d: &Datum) -> Result<Option<Export>, OutOfMemory>
    ensures { IfOk result (λ e. option_map export_tree e ≡ export_item (plain d.now)) }
{
    let Some(ds) = parts(d) else {
        return Ok(None);
    };
    let [first, params @ ..] = ds else {
        return Ok(None);
    };
    let Some(name) = untyped_name(first) else {
        return Ok(None);
    };
    if name_is(name.as_bytes(), b"inline") {
        return Ok(None);
    }
    if !are_names(params) {
        return Ok(None);
    }
    Ok(Some(Export {
        name: name.copy(alloc)?,
        count: params.len(),
    }))
}
