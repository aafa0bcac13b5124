// The names that a module imports.
ghost use Rattle.std.specs.Prelude.{◌≡◌, [], map, IfOk};
ghost use Rattle.std.specs.List.{list_any};
ghost use Rattle.scheme_data.specs.Names.{is_same};
ghost use Rattle.resolver.specs.Trees.{import_tree};
ghost use Rattle.resolver.specs.Names.{is_primitive_name};
ghost use Rattle.resolver.specs.Drafts.{imported_names};
ghost use Rattle.resolver.specs.Parts.{with_first};

use crate::built_head::Import;
use crate::names::names_primitive;
use name_table::NameTable;
use scheme_data::{OutOfMemory, Text};
use std::alloc::Global;

/// Whether one of the names is a primitive's.
fn name_primitive(names: &[Text]) -> bool
    ensures { result ≡ list_any is_primitive_name names.now }
{
    names.iter().any(|name| names_primitive(name.as_bytes()))
}

/// Whether an item imports a primitive.
pub fn import_primitive(imports: &[Import]) -> bool
    ensures { result ≡ list_any is_primitive_name (imported_names (map import_tree imports.now)) }
{
    for item in imports {
        if name_primitive(item.names.as_slice()) {
            return true;
        }
    }
    false
}

/// Puts names at the end of a table, each where it isn't there yet.
fn add_names(table: &mut NameTable, names: &[Text]) -> Result<(), OutOfMemory>
    ensures { IfOk result (λ done. table.new ≡ with_first is_same table.old names.now) }
{
    for name in names {
        table.insert(name.as_bytes())?;
    }
    Ok(())
}

/// The names that items import, each once, in order of first sight.
pub fn imported_names(alloc: Global, imports: &[Import]) -> Result<NameTable, OutOfMemory>
    ensures { IfOk result (λ names. names ≡ with_first is_same [] (imported_names (map import_tree imports.now))) }
{
    let mut table = NameTable::new(alloc);
    for item in imports {
        add_names(&mut table, item.names.as_slice())?;
    }
    Ok(table)
}
