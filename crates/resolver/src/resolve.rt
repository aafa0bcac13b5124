// The interface and the module of a source.
ghost use Rattle.std.specs.Prelude.{◌≡◌, IfOk, IfSome, Some, map, replicate};
ghost use Rattle.std.specs.Option.{option_map};
ghost use Rattle.scheme_data.specs.Data.{AreProper, plain_all};
ghost use Rattle.built_table.specs.declared.primitives.Ty.TheVariants.{Obj};
ghost use Rattle.iface_text.specs.Format.{iface_tree, HasSpelling};
ghost use Rattle.iface_text.specs.Lines.{untyped_row};
ghost use Rattle.resolver.specs.Trees.{import_tree, head_tree};
ghost use Rattle.core_tree.specs.Tree.{module_tree};
ghost use Rattle.core_tree.specs.WellFormed.{IsWellFormed};
ghost use Rattle.resolver.specs.Drafts.{exported_rows, exported};
ghost use Rattle.resolver.specs.Elaboration.{AreSpelled, import_item, completed, elaborated};
ghost use Rattle.resolver.specs.Parts.{draft_tree};

use crate::built_head::{BuiltHead, Import};
use crate::drafts::{Draft, read_draft};
use crate::uses::uses_for;
use built_table::Ty;
use core_tree::{ImportItem, Module};
use iface_text::{Iface, Row, RowKind};
use scheme_data::{Datum, List, OutOfMemory, Stack, Text};
use std::alloc::Global;

/// So many types `obj`.
fn objects(alloc: Global, count: usize) -> Result<List<Ty>, OutOfMemory>
    ensures { IfOk result (λ types. types ≡ replicate count Obj) }
{
    let mut types = List::new(alloc);
    for i in 0..count {
        types.push(Ty::Obj)?;
    }
    Ok(types)
}

/// The row of a function with so many parameters.
fn untyped_row(alloc: Global, name: &Text, count: usize) -> Result<Row, OutOfMemory>
    ensures { IfOk result (λ row. row ≡ untyped_row name.now count) }
{
    let name = name.copy(alloc)?;
    let params = objects(alloc, count)?;
    Ok(Row {
        name,
        kind: RowKind::Fun(params, Ty::Obj),
    })
}

/// A row for each function that is exported, in clause order.
fn exported_rows(alloc: Global, head: &BuiltHead) -> Result<List<Row>, OutOfMemory>
    ensures { IfOk result (λ rows. rows ≡ exported_rows (head_tree head.now)) }
{
    let mut rows = List::new(alloc);
    for export in head.exports.as_slice() {
        rows.push(untyped_row(alloc, &export.name, export.count)?)?;
    }
    Ok(rows)
}

/// The import items of a module, in clause order.
fn import_items(alloc: Global, imports: List<Import>) -> Result<List<ImportItem>, OutOfMemory>
    ensures { IfOk result (λ items. items ≡ map import_item (map import_tree imports)) }
{
    let mut items = Stack::new(alloc);
    let mut rest = imports.into_stack();
    while let Some(import) = rest.pop() {
        let Import { module_name, names } = import;
        items.push(ImportItem { module_name, names })?;
    }
    Ok(items.into_list())
}

/// The interface of a source: the name of its module, and a row for each function that it exports, in clause order; none exactly where its data aren't by the forms that are built.
pub fn exported_interface(alloc: Global, forms: &[Datum]) -> Result<Option<Iface>, OutOfMemory>
    requires { AreProper (plain_all forms.now) }
    ensures value { IfOk result (λ i. option_map iface_tree i ≡ exported (plain_all forms.now)) }
    ensures spelled { IfOk result (λ i. IfSome i (λ it. HasSpelling (iface_tree it))) }
{
    let Some(draft) = read_draft(alloc, forms)? else {
        return Ok(None);
    };
    let rows = exported_rows(alloc, &draft.head)?;
    Ok(Some(Iface {
        module_name: draft.head.name,
        rows,
    }))
}

/// The module of a draft with these interfaces; none where an imported name has no row.
fn module_of(alloc: Global, draft: Draft, ifaces: &[Iface]) -> Result<Option<Module>, OutOfMemory>
    ensures { IfOk result (λ m. option_map module_tree m ≡ completed (map iface_tree ifaces.now) (Some (draft_tree draft))) }
{
    let Some(uses) = uses_for(alloc, &draft.head, &draft.outside, ifaces)? else {
        return Ok(None);
    };
    let exports = exported_rows(alloc, &draft.head)?;
    let Draft { head, tops, .. } = draft;
    let imports = import_items(alloc, head.imports)?;
    Ok(Some(Module {
        name: head.name,
        imports,
        tops,
        uses,
        exports,
        main: head.main,
    }))
}

/// The module of a source's data with these interfaces; none exactly where the data aren't by the forms that are built, or an imported name has no row.
pub fn resolve_module(
    alloc: Global,
    forms: &[Datum],
    ifaces: &[Iface],
) -> Result<Option<Module>, OutOfMemory>
    requires proper { AreProper (plain_all forms.now) }
    requires spelled { AreSpelled (map iface_tree ifaces.now) }
    ensures value { IfOk result (λ m. option_map module_tree m ≡ elaborated (map iface_tree ifaces.now) (plain_all forms.now)) }
    ensures formed { IfOk result (λ m. IfSome m (λ it. IsWellFormed (module_tree it))) }
{
    let Some(draft) = read_draft(alloc, forms)? else {
        return Ok(None);
    };
    module_of(alloc, draft, ifaces)
}
