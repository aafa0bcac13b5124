ghost use Rattle.std.specs.Prelude.{◌≡◌, IfOk};
ghost use Rattle.scheme_data.specs.Forms.{form};
ghost use Rattle.scheme_data.specs.TypedNames.{typed};
ghost use Rattle.core_forms.specs.Names.{binder_with, binder_of, binders_of};
ghost use Rattle.core_forms.specs.Code.{may_have_types, data_of};
ghost use Rattle.core_forms.specs.Working.{BindingsAs};
ghost use Rattle.core_forms.specs.Shapes.{PairAs};

use crate::build::items_of;
use crate::core_form::Binder;
use marked_names::MarkedNames;
use scheme_data::{Datum, OutOfMemory, Place, Stack, Text, has_type, typed_name};
use sqlite_items::Items;
use std::alloc::Global;

/// Where the names of a list may have types.
#[derive(Clone, Copy, Debug, PartialEq, Eq)]
pub enum Types {
    Allowed,
    Refused,
}

/// The name of a symbol where it is bound; none of anything else.
pub fn binder_of(alloc: Global, types: Types, datum: &Datum) -> Result<Option<Binder>, OutOfMemory>
    ensures { IfOk result (λ b. b ≡ binder_of (may_have_types types) (form datum.now)) }
{
    match datum {
        Datum::Sym(at, name, mark) => {
            if types == Types::Refused && has_type(name.as_bytes()) {
                return Ok(None);
            }
            named(alloc, *at, name.as_bytes(), *mark)
        }
        _ => Ok(None),
    }
}

fn named(alloc: Global, at: Place, name: &[u8], mark: u32) -> Result<Option<Binder>, OutOfMemory>
    ensures { IfOk result (λ b. b ≡ binder_with at mark (typed name.now)) }
{
    let Some(typed) = typed_name(name) else {
        return Ok(None);
    };
    let name = Text::from_bytes(alloc, typed.name)?;
    let ty = match typed.ty {
        Some(word) => Some(Text::from_bytes(alloc, word)?),
        None => None,
    };
    Ok(Some(Binder { at, name, mark, ty }))
}

/// The names of a list, where they are names and distinct.
pub fn binders_of(
    alloc: Global,
    types: Types,
    items: &[Datum],
) -> Result<Option<Items<Binder>>, OutOfMemory>
    ensures { IfOk result (λ bs. bs ≡ binders_of (may_have_types types) (data_of items.now)) }
{
    let mut binders = Items::new(alloc);
    let mut seen = MarkedNames::new(alloc);
    for datum in items {
        let Some(binder) = binder_of(alloc, types, datum)? else {
            return Ok(None);
        };
        if !seen.insert(binder.name.as_bytes(), binder.mark)? {
            return Ok(None);
        }
        binders.push(binder)?;
    }
    Ok(Some(binders))
}

/// The two sides of bindings.
#[derive(Drop)]
pub struct Bindings {
    pub names: Items<Datum>,
    pub values: Items<Datum>,
}

/// A name and its value.
#[derive(Drop)]
struct Pair {
    name: Datum,
    value: Datum,
}

/// The two sides of `(name value)`; none of anything else.
fn pair_of(binding: Datum) -> Option<Pair>
    ensures { PairAs (form binding) result }
{
    let mut pair = items_of(binding)?;
    if pair.len() != 2 {
        return None;
    }
    let value = pair.remove(1);
    let name = pair.remove(0);
    Some(Pair { name, value })
}

/// The names and values of bindings `(name value)`, where all are.
pub fn bindings_of(alloc: Global, bindings: Stack<Datum>) -> Result<Option<Bindings>, OutOfMemory>
    ensures { IfOk result (λ b. BindingsAs (data_of bindings) b) }
{
    let mut bindings = bindings;
    let mut names = Items::new(alloc);
    let mut values = Items::new(alloc);
    while let Some(binding) = bindings.pop() {
        let Some(Pair { name, value }) = pair_of(binding) else {
            return Ok(None);
        };
        names.push(name)?;
        values.push(value)?;
    }
    Ok(Some(Bindings { names, values }))
}
