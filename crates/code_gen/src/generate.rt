ghost use Rattle.std.specs.Prelude.{◌≡◌, [], ◌∷◌, ◌++◌, map, IfOk, OnOk};
ghost use Rattle.core_tree.specs.Tree.{module_tree, used_callees};
ghost use Rattle.core_tree.specs.WellFormed.{IsWellFormed};
ghost use Rattle.c_tree.specs.Functions.{items_of, item_of};
ghost use Rattle.plan_rules.specs.Translation.{Translated};
ghost use Rattle.code_gen.specs.Callees.{callee_in};
ghost use Rattle.code_gen.specs.Emission.{declaration, own_callees, declarations_of};

use crate::callees::{Called, Functions};
use crate::definitions::{define_all, empty_function, initialization};
use c_tree::{CItem, CTy, CUnit, maker_name_text};
use core_tree::{Module, Use};
use scheme_data::{List, OutOfMemory};
use std::alloc::Global;

fn declaration(alloc: Global, called: &Called<'_>) -> Result<CItem, OutOfMemory>
    ensures { IfOk result (λ item. item_of item ≡ declaration (callee_in called.now)) }
{
    let mut params = List::new(alloc);
    for _ in 0..called.params {
        params.push(CTy::Obj)?;
    }
    let name = called.c_name(alloc)?;
    Ok(CItem::Declared(CTy::Obj, name, params))
}

fn declare_own(
    alloc: Global,
    functions: &Functions<'_>,
    items: &mut List<CItem>,
) -> Result<(), OutOfMemory>
    ensures { OnOk result (items_of items.new ≡ items_of items.old ++ map declaration (own_callees (module_tree functions.now))) }
{
    for function in functions.own() {
        items.push(declaration(alloc, &functions.called(function))?)?;
    }
    Ok(())
}

// A function that is called is declared, and one that is only imported isn't.
fn declare_use(alloc: Global, used: &Use, items: &mut List<CItem>) -> Result<(), OutOfMemory>
    ensures { OnOk result (items_of items.new ≡ items_of items.old ++ map declaration (used_callees (used.now ∷ []))) }
{
    match used {
        Use::From(module_name, row) => {
            items.push(declaration(alloc, &Called::of_row(module_name, row))?)
        }
        Use::Need(_, _) => Ok(()),
    }
}

fn declare_used(alloc: Global, uses: &[Use], items: &mut List<CItem>) -> Result<(), OutOfMemory>
    ensures { OnOk result (items_of items.new ≡ items_of items.old ++ map declaration (used_callees uses.now)) }
{
    for used in uses {
        declare_use(alloc, used, items)?;
    }
    Ok(())
}

// Declarations of the module's functions, and of those of other modules that it calls.
fn declarations(alloc: Global, functions: &Functions<'_>) -> Result<List<CItem>, OutOfMemory>
    ensures { IfOk result (λ items. items_of items ≡ declarations_of (module_tree functions.now)) }
{
    let mut items = List::new(alloc);
    declare_own(alloc, functions, &mut items)?;
    declare_used(alloc, functions.in_module().uses.as_slice(), &mut items)?;
    Ok(items)
}

/// A unit that is a translation of the module.
pub fn generate_unit(alloc: Global, m: &Module) -> Result<CUnit, OutOfMemory>
    requires { IsWellFormed (module_tree m.now) }
    ensures { IfOk result (λ u. Translated (module_tree m.now) (items_of u.items)) }
{
    let functions = Functions::new(alloc, m)?;
    let mut items = declarations(alloc, &functions)?;
    define_all(alloc, &functions, &mut items)?;
    let maker = empty_function(alloc, maker_name_text(alloc, m.name.as_bytes())?)?;
    let initializer = initialization(alloc, &functions)?;
    items.push(CItem::Defined(maker))?;
    items.push(CItem::Defined(initializer))?;
    Ok(CUnit { items })
}
