// Definitions of functions.
ghost use Rattle.std.specs.Prelude.{◌≡◌, [], ◌∷◌, ◌++◌, not, if◌then◌else◌, IfOk, Some, map};
ghost use Rattle.std.specs.Option.{option_map};
ghost use Rattle.scheme_data.specs.Data.{plain, plain_all};
ghost use Rattle.name_table.specs.Names.{has_name};
ghost use Rattle.resolver.specs.Drafts.{names, prototype, definition};
ghost use Rattle.resolver.specs.Parts.{distinct, definition_of};

use crate::names::{may_be_bound, may_be_defined};
use crate::shapes::{is_symbol, parts, symbol};
use name_table::NameTable;
use scheme_data::{Datum, OutOfMemory, Text};
use std::alloc::Global;

/// A function that is defined: its name, its parameters and its body.
#[derive(Drop)]
pub struct Definition<'a> {
    pub name: &'a Text,
    pub params: NameTable,
    pub body: &'a [Datum],
}

/// Puts a name at the end of a table, and says whether it did: not where it is there already.
pub fn add_name(names: &mut NameTable, name: &Text) -> Result<bool, OutOfMemory>
    ensures added { IfOk result (λ added. added ≡ not (has_name names.old name.now)) }
    ensures ok { IfOk result (λ added. names.new ≡ (if added then names.old ++ name.now ∷ [] else names.old)) }
{
    names.insert(name.as_bytes())
}

/// The names of parameters; none where one may not be bound or stands twice.
fn parameters(alloc: Global, ds: &[Datum]) -> Result<Option<NameTable>, OutOfMemory>
    ensures { IfOk result (λ xs. xs ≡ distinct (names (plain_all ds.now))) }
{
    let mut params = NameTable::new(alloc);
    for d in ds {
        let Some(name) = symbol(d) else {
            return Ok(None);
        };
        if !may_be_bound(name.as_bytes()) {
            return Ok(None);
        }
        if !add_name(&mut params, name)? {
            return Ok(None);
        }
    }
    Ok(Some(params))
}

/// The definition of `(g x ...)` with this body.
fn prototype<'a>(
    alloc: Global,
    d: &'a Datum,
    body: &'a [Datum],
) -> Result<Option<Definition<'a>>, OutOfMemory>
    ensures { IfOk result (λ p. option_map definition_of p ≡ prototype (plain d.now) (plain_all body.now)) }
{
    let Some(ds) = parts(d) else {
        return Ok(None);
    };
    let [first, rest @ ..] = ds else {
        return Ok(None);
    };
    let Some(name) = symbol(first) else {
        return Ok(None);
    };
    if !may_be_defined(name.as_bytes()) {
        return Ok(None);
    }
    let Some(params) = parameters(alloc, rest)? else {
        return Ok(None);
    };
    Ok(Some(Definition { name, params, body }))
}

/// The definition of `(define (g x ...) e e ...)`.
pub fn defined<'a>(alloc: Global, d: &'a Datum) -> Result<Option<Definition<'a>>, OutOfMemory>
    ensures { IfOk result (λ p. option_map definition_of p ≡ definition (plain d.now)) }
{
    let Some(ds) = parts(d) else {
        return Ok(None);
    };
    let [word, first, body @ ..] = ds else {
        return Ok(None);
    };
    if !is_symbol(word, b"define") {
        return Ok(None);
    }
    prototype(alloc, first, body)
}
