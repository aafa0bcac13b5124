// What a source takes from other modules.
ghost use Rattle.std.specs.Prelude.{◌≡◌, [], map, if◌then◌else◌, Some, None, IfOk, OnOk};
ghost use Rattle.std.specs.Option.{option_map};
ghost use Rattle.iface_text.specs.Format.{iface_tree};
ghost use Rattle.resolver.specs.Trees.{import_tree, head_tree};
ghost use Rattle.core_tree.specs.WellFormed.{same_use};
ghost use Rattle.resolver.specs.Elaboration.{both, calls, item_needs, needs, each_use_once};
ghost use Rattle.resolver.specs.Parts.{with_first};
ghost use Rattle.resolver.specs.UseTables.{HasModules, TakesItem};
ghost use Rattle.resolver.specs.TakenRows.{use_of};

use crate::built_head::{BuiltHead, Import};
use crate::interfaces::{Interfaces, copy_row};
use core_tree::Use;
use iface_text::{Iface, Row};
use name_table::NameTable;
use scheme_data::{List, OutOfMemory, Text};
use std::alloc::Global;
use std::collections::{BTreeMap, BTreeSet};

/// A row of another module that is imported, and whether it is called.
#[derive(Clone, Copy)]
struct Taken<'a> {
    module_name: &'a Text,
    row: &'a Row,
    is_called: bool,
}

impl<'a> Taken<'a> {
    fn to_use(&self, alloc: Global) -> Result<Use, OutOfMemory>
        ensures { IfOk result (λ u. u ≡ use_of self.now) }
    {
        let module_name = self.module_name.copy(alloc)?;
        let row = copy_row(alloc, self.row)?;
        if self.is_called {
            Ok(Use::From(module_name, row))
        } else {
            Ok(Use::Need(module_name, row))
        }
    }
}

/// The modules from which names are imported, each found by the name.
type ModulesByName<'a> = BTreeMap<&'a [u8], &'a Text>;

/// The modules of imported names. Of two items that have one name the first counts.
fn modules_by_name<'a>(
    alloc: Global,
    imports: &'a [Import],
) -> Result<ModulesByName<'a>, OutOfMemory>
    ensures { IfOk result (λ t. HasModules t.entries (map import_tree imports.now)) }
{
    let mut modules = BTreeMap::new(alloc);
    // The last item comes first, so that of two with one name the first stays.
    for i in (0..imports.len()).rev() {
        add_item(&mut modules, &imports[i])?;
    }
    Ok(modules)
}

/// Gives each name of an item its module.
fn add_item<'a>(modules: &mut ModulesByName<'a>, item: &'a Import) -> Result<(), OutOfMemory>
    ensures { OnOk result (TakesItem modules.old.entries modules.new.entries (import_tree item.now)) }
{
    for name in item.names.as_slice() {
        modules.insert(name.as_bytes(), &item.module_name)?;
    }
    Ok(())
}

/// What is called, in order of first use; none where a name isn't imported or has no row.
fn calls<'a>(
    alloc: Global,
    interfaces: &Interfaces<'a>,
    imports: &'a [Import],
    outside: &NameTable,
) -> Result<Option<List<Taken<'a>>>, OutOfMemory>
    ensures { IfOk result (λ taken. option_map (map use_of) taken ≡ calls interfaces.now (map import_tree imports.now) outside.now) }
{
    let modules = modules_by_name(alloc, imports)?;
    let mut taken = List::new(alloc);
    for place in 0..outside.len() {
        let name = outside.name(place);
        let Some(&module_name) = modules.get(name) else {
            return Ok(None);
        };
        let Some(row) = interfaces.row(module_name.as_bytes(), name) else {
            return Ok(None);
        };
        taken.push(Taken {
            module_name,
            row,
            is_called: true,
        })?;
    }
    Ok(Some(taken))
}

/// Adds what an item imports, in clause order; not where a name has no row.
fn add_needs<'a>(
    interfaces: &Interfaces<'a>,
    item: &'a Import,
    taken: &mut List<Taken<'a>>,
) -> Result<bool, OutOfMemory>
    ensures { IfOk result (λ added. (if added then Some (map use_of taken.new) else None) ≡ both (Some (map use_of taken.old)) (item_needs interfaces.now item.now.module_name item.now.names)) }
{
    for name in item.names.as_slice() {
        let Some(row) = interfaces.row(item.module_name.as_bytes(), name.as_bytes()) else {
            return Ok(false);
        };
        taken.push(Taken {
            module_name: &item.module_name,
            row,
            is_called: false,
        })?;
    }
    Ok(true)
}

/// Adds what items import, in clause order; not where a name has no row.
fn add_all_needs<'a>(
    interfaces: &Interfaces<'a>,
    imports: &'a [Import],
    taken: &mut List<Taken<'a>>,
) -> Result<bool, OutOfMemory>
    ensures { IfOk result (λ added. (if added then Some (map use_of taken.new) else None) ≡ both (Some (map use_of taken.old)) (needs interfaces.now (map import_tree imports.now))) }
{
    for item in imports {
        if !add_needs(interfaces, item, taken)? {
            return Ok(false);
        }
    }
    Ok(true)
}

/// Each name of a module once, in order of first sight.
fn each_once(alloc: Global, taken: &[Taken<'_>]) -> Result<List<Use>, OutOfMemory>
    ensures { IfOk result (λ us. us ≡ with_first same_use [] (map use_of taken.now)) }
{
    let mut seen = BTreeSet::new(alloc);
    let mut uses = List::new(alloc);
    for t in taken {
        if !seen.insert((t.module_name.as_bytes(), t.row.name.as_bytes()))? {
            continue;
        }
        uses.push(t.to_use(alloc)?)?;
    }
    Ok(uses)
}

/// What a source takes from other modules: what it calls, in order of first use, and then what it imports and doesn't call, in clause order, each name of a module once; none exactly where a name that it imports has no row.
pub fn uses_for(
    alloc: Global,
    head: &BuiltHead,
    outside: &NameTable,
    ifaces: &[Iface],
) -> Result<Option<List<Use>>, OutOfMemory>
    ensures { IfOk result (λ us. us ≡ each_use_once (both (calls (map iface_tree ifaces.now) (head_tree head.now).imports outside.now) (needs (map iface_tree ifaces.now) (head_tree head.now).imports))) }
{
    let interfaces = Interfaces::new(alloc, ifaces)?;
    let imports = head.imports.as_slice();
    let Some(mut taken) = calls(alloc, &interfaces, imports, outside)? else {
        return Ok(None);
    };
    if !add_all_needs(&interfaces, imports, &mut taken)? {
        return Ok(None);
    }
    Ok(Some(each_once(alloc, taken.as_slice())?))
}
