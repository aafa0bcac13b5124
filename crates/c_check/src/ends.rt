// The end of the text: what is used is defined, makers and initialisations are called, and `main` is there.
ghost use Rattle.std.specs.Prelude.{◌≡◌, ℕ, List, [], ◌++◌, IfOk};
ghost use Rattle.std.specs.List.{flat_map};
ghost use Rattle.c_tree.specs.Functions.{items_of};
ghost use Rattle.c_meaning.specs.Plain.{is_called_once, defined_names};
ghost use Rattle.c_meaning.specs.Breaches.{has};
ghost use Rattle.c_meaning.specs.Checked.{used_by, wanted_breaches, ends_breaches, main_breaches, breaches};
ghost use Rattle.c_check.specs.Firsts.{first};
ghost use Rattle.c_check.specs.Knowns.{known_of};

use crate::causes::unless;
use crate::items::{breach_of, items_breach, name_of};
use crate::known::Known;
use crate::used::used_names;
use c_meaning::{BadCause, Breach};
use c_tree::{CItem, begins_as_initializer, begins_as_maker};
use name_table::NameTable;
use scheme_data::OutOfMemory;
use std::alloc::Global;

fn is_called_once(name: &[u8]) -> bool
    ensures { result ≡ is_called_once name.now }
{
    begins_as_maker(name) || begins_as_initializer(name)
}

// What is wanted of a name that is declared.
fn wanted_fault(used: &NameTable, names: &NameTable, name: &[u8]) -> Option<BadCause>
    ensures { result ≡ first (wanted_breaches used.now names.now name.now) }
{
    let is_used = used.contains(name);
    unless(BadCause::Undeclared, !is_used || names.contains(name)).or(unless(
        BadCause::Shape,
        !is_called_once(name) || is_used,
    ))
}

fn wanted_breach(
    alloc: Global,
    used: &NameTable,
    names: &NameTable,
    items: &[CItem],
) -> Result<Option<Breach>, OutOfMemory>
    ensures { IfOk result (λ b. b ≡ first (ends_breaches used.now names.now (items_of items.now))) }
{
    for item in items {
        let name = name_of(item);
        if let Some(cause) = wanted_fault(used, names, name) {
            return Ok(Some(breach_of(alloc, name, cause)?));
        }
    }
    Ok(None)
}

fn main_breach(alloc: Global, names: &NameTable) -> Result<Option<Breach>, OutOfMemory>
    ensures { IfOk result (λ b. b ≡ first (main_breaches names.now)) }
{
    if names.contains(b"main") {
        return Ok(None);
    }
    Ok(Some(breach_of(alloc, b"main", BadCause::Shape)?))
}

fn end_breach(
    alloc: Global,
    names: &NameTable,
    items: &[CItem],
) -> Result<Option<Breach>, OutOfMemory>
    requires { (n : List ℕ) → has names.now n ≡ has (defined_names (items_of items.now)) n }
    ensures { IfOk result (λ b. b ≡ first (ends_breaches (flat_map used_by (items_of items.now)) (defined_names (items_of items.now)) (items_of items.now) ++ main_breaches (defined_names (items_of items.now)))) }
{
    let used = used_names(alloc, items)?;
    if let Some(breach) = wanted_breach(alloc, &used, names, items)? {
        return Ok(Some(breach));
    }
    let breach = main_breach(alloc, names)?;
    Ok(breach)
}

// The first breach of a program, where nothing is known in front of it.
fn program_breach(
    alloc: Global,
    known: &mut Known,
    items: &[CItem],
) -> Result<Option<Breach>, OutOfMemory>
    requires { known_of known.old ≡ record { functions = []; globals = []; names = [] } }
    ensures { IfOk result (λ b. b ≡ first (breaches (items_of items.now))) }
{
    if let Some(breach) = items_breach(known, items)? {
        return Ok(Some(breach));
    }
    let breach = end_breach(alloc, &known.names, items)?;
    Ok(breach)
}

/// The first breach of a program.
pub fn first_breach(alloc: Global, items: &[CItem]) -> Result<Option<Breach>, OutOfMemory>
    ensures { IfOk result (λ b. b ≡ first (breaches (items_of items.now))) }
{
    let mut known = Known::new(alloc);
    program_breach(alloc, &mut known, items)
}
