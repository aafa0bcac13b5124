ghost use Rattle.std.specs.Prelude.{◌≡◌, IfOk, map};
ghost use Rattle.scheme_data.specs.Forms.{form, forms};
ghost use Rattle.syntax_rules.specs.Patterns.{pattern_of, patterns_of, as_list};
ghost use Rattle.syntax_rules.specs.TreeViews.{pattern_if};

use crate::tree::{Constant, Pattern};
use crate::words::{dots_end, is_dots};
use name_table::NameTable;
use scheme_data::{Datum, OutOfMemory};
use sqlite_items::{Boxed, Items};
use std::alloc::Global;

/// The pattern that a datum is, if it is one.
#[cycle(reading)]
fn pattern_of(
    alloc: Global,
    literals: &NameTable,
    d: &Datum,
) -> Result<Option<Pattern>, OutOfMemory>
    ensures { IfOk result (λ o. pattern_if o ≡ pattern_of literals.now (form d.now)) }
{
    if let Some(constant) = Constant::of(alloc, d)? {
        return Ok(Some(Pattern::Constant(constant)));
    }
    match d {
        Datum::Sym(_, name, _) => {
            if is_dots(d) {
                return Ok(None);
            }
            if literals.contains(name.as_bytes()) {
                return Ok(Some(Pattern::Literal(name.copy(alloc)?)));
            }
            Ok(Some(Pattern::Any))
        }
        Datum::List(_, ds) => list_pattern_of(alloc, literals, ds.as_slice()),
        _ => Ok(None),
    }
}

/// The pattern that a list of these is, if it is one.
#[cycle(reading)]
pub(crate) fn list_pattern_of(
    alloc: Global,
    literals: &NameTable,
    ds: &[Datum],
) -> Result<Option<Pattern>, OutOfMemory>
    ensures { IfOk result (λ o. pattern_if o ≡ as_list (patterns_of literals.now (forms (map form ds.now)))) }
{
    let mut front = Items::new(alloc);
    for i in 0..ds.len() {
        let Some(p) = pattern_of(alloc, literals, &ds[i])? else {
            return Ok(None);
        };
        if dots_end(ds, i) {
            return Ok(Some(Pattern::Dots(front, Boxed::new(alloc, p)?)));
        }
        front.push(p)?;
    }
    Ok(Some(Pattern::Exactly(front)))
}
