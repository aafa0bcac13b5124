// The top-level forms of a module, and the functions that they define.
ghost use Rattle.std.specs.Prelude.{◌≡◌, IfOk, Some, map};
ghost use Rattle.std.specs.Option.{option_map};
ghost use Rattle.scheme_data.specs.Data.{plain, plain_all};
ghost use Rattle.resolver.specs.Drafts.{begins_definition, top_form, tops, definitions_in, function_names};
ghost use Rattle.resolver.specs.Parts.{top_of, param_count, param_counts, distinct};

use crate::definitions::{Definition, add_name, defined};
use crate::shapes::{is_symbol, parts};
use name_table::NameTable;
use scheme_data::{Datum, List, OutOfMemory};
use std::alloc::Global;

/// A top-level form: a definition, or an expression.
#[derive(Drop)]
pub enum TopForm<'a> {
    Define(Definition<'a>),
    Evaluate(&'a Datum),
}

impl TopForm<'_> {
    /// How many parameters it has, where an expression has none.
    pub fn param_count(&self) -> usize
        ensures { result ≡ param_count (top_of self.now) }
    {
        match self {
            TopForm::Define(d) => d.params.len(),
            TopForm::Evaluate(_) => 0,
        }
    }
}

/// Whether a form begins with the word `define`.
fn begins_definition(d: &Datum) -> bool
    ensures { result ≡ begins_definition (plain d.now) }
{
    let Some(ds) = parts(d) else {
        return false;
    };
    let [word, ..] = ds else {
        return false;
    };
    is_symbol(word, b"define")
}

/// The top-level form of a datum; none where it begins with the word `define` and is no definition.
fn top_form<'a>(alloc: Global, d: &'a Datum) -> Result<Option<TopForm<'a>>, OutOfMemory>
    ensures { IfOk result (λ t. option_map top_of t ≡ top_form (plain d.now)) }
{
    if !begins_definition(d) {
        return Ok(Some(TopForm::Evaluate(d)));
    }
    let Some(definition) = defined(alloc, d)? else {
        return Ok(None);
    };
    Ok(Some(TopForm::Define(definition)))
}

/// The top-level forms, in source order; none where one begins with the word `define` and is no definition.
pub fn top_forms<'a>(
    alloc: Global,
    ds: &'a [Datum],
) -> Result<Option<List<TopForm<'a>>>, OutOfMemory>
    ensures { IfOk result (λ ts. option_map (map top_of) ts ≡ tops (plain_all ds.now)) }
{
    let mut tops = List::new(alloc);
    for d in ds {
        let Some(top) = top_form(alloc, d)? else {
            return Ok(None);
        };
        tops.push(top)?;
    }
    Ok(Some(tops))
}

/// The names of the functions, in source order; none where one stands twice.
pub fn function_names(alloc: Global, tops: &[TopForm<'_>]) -> Result<Option<NameTable>, OutOfMemory>
    ensures { IfOk result (λ xs. xs ≡ distinct (Some (function_names (definitions_in (map top_of tops.now))))) }
{
    let mut names = NameTable::new(alloc);
    for top in tops {
        let TopForm::Define(d) = top else {
            continue;
        };
        if !add_name(&mut names, d.name)? {
            return Ok(None);
        }
    }
    Ok(Some(names))
}

/// How many parameters each function has, in source order.
pub fn param_counts(alloc: Global, tops: &[TopForm<'_>]) -> Result<List<usize>, OutOfMemory>
    ensures { IfOk result (λ counts. counts ≡ param_counts (definitions_in (map top_of tops.now))) }
{
    let mut counts = List::new(alloc);
    for top in tops {
        let TopForm::Define(d) = top else {
            continue;
        };
        counts.push(d.params.len())?;
    }
    Ok(counts)
}
