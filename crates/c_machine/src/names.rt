// Names as numbers.
ghost use Rattle.std.specs.Prelude.{◌≡◌, ◌++◌, ◌∷◌, [], true, false, IfOk, OnOk};
ghost use Rattle.scheme_data.specs.Names.{are_distinct};
ghost use Rattle.name_table.specs.Names.{has_name};
ghost use Rattle.c_meaning.specs.Execution.{position_of};
ghost use Rattle.c_machine.specs.Decoded.{variable_names, variables_of, has_distinct, definitions, definition_in, function_names};

use c_check::Places;
use c_tree::{CFun, CItem, CVar};
use name_table::NameTable;
use scheme_data::OutOfMemory;
use std::alloc::Global;

/// The place of a name, and the number of names where it isn't there.
pub fn place(names: &NameTable, name: &[u8]) -> usize
    ensures { result ≡ position_of name.now names.now }
{
    match names.position(name) {
        Some(at) => at,
        None => names.len(),
    }
}

/// The place of a parameter or local, and their number where it isn't there.
pub fn local_place(names: &Places, name: &[u8]) -> usize
    ensures { result ≡ position_of name.now names.now }
{
    match names.position(name) {
        Some(at) => at,
        None => names.len(),
    }
}

fn add_local(names: &mut Places, name: &[u8]) -> Result<(), OutOfMemory>
    requires { has_name names.old name.now ≡ false }
    ensures { OnOk result (names.new ≡ names.old ++ name.now ∷ []) }
{
    let _ = names.insert(name)?;
    Ok(())
}

fn add(names: &mut NameTable, name: &[u8]) -> Result<(), OutOfMemory>
    requires { has_name names.old name.now ≡ false }
    ensures { OnOk result (names.new ≡ names.old ++ name.now ∷ []) }
{
    let _ = names.insert(name)?;
    Ok(())
}

fn add_variables(names: &mut Places, vars: &[CVar]) -> Result<(), OutOfMemory>
    requires { are_distinct (names.old ++ variable_names vars.now) ≡ true }
    ensures { OnOk result (names.new ≡ names.old ++ variable_names vars.now) }
{
    for v in vars {
        add_local(names, v.name.as_bytes())?;
    }
    Ok(())
}

/// The names of a function's parameters and locals.
pub fn names_in_function(alloc: Global, f: &CFun) -> Result<Places, OutOfMemory>
    requires { has_distinct f.now ≡ true }
    ensures { IfOk result (λ names. names ≡ variable_names (variables_of f.now)) }
{
    let mut names = Places::new(alloc);
    add_variables(&mut names, f.params.as_slice())?;
    add_variables(&mut names, f.locals.as_slice())?;
    Ok(names)
}

fn add_definition(names: &mut NameTable, item: &CItem) -> Result<(), OutOfMemory>
    requires { are_distinct (names.old ++ function_names (definition_in item.now)) ≡ true }
    ensures { OnOk result (names.new ≡ names.old ++ function_names (definition_in item.now)) }
{
    match item {
        CItem::Extern(_) => Ok(()),
        CItem::Global(_) => Ok(()),
        CItem::Declared(_, _, _) => Ok(()),
        CItem::Defined(f) => add(names, f.name.as_bytes()),
    }
}

/// The names of the functions that are defined.
pub fn names_of_functions(alloc: Global, items: &[CItem]) -> Result<NameTable, OutOfMemory>
    requires { are_distinct (function_names (definitions items.now)) ≡ true }
    ensures { IfOk result (λ names. names ≡ function_names (definitions items.now)) }
{
    let mut names = NameTable::new(alloc);
    for item in items {
        add_definition(&mut names, item)?;
    }
    Ok(names)
}
