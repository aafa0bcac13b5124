ghost use Rattle.std.specs.Prelude.{◌≡◌, [], None, IfOk, map};
ghost use Rattle.std.specs.Option.{option_map};
ghost use Rattle.scheme_data.specs.Names.{are_distinct};
ghost use Rattle.scheme_data.specs.Data.{plain, plain_all};
ghost use Rattle.resolver.specs.BuiltHeads.{clauses, imports_itself, exported_names, is_right, head_of};
ghost use Rattle.resolver.specs.Trees.{export_tree, head_tree};

use crate::shapes::{is_symbol, name_is, parts, untyped_name};
use name_table::NameTable;
use scheme_data::{Datum, List, OutOfMemory, Text, TextList};
use std::alloc::Global;

/// An item of an `import` clause: a module, and at least one name that is imported from it.
#[derive(Drop)]
pub struct Import {
    pub module_name: Text,
    pub names: TextList,
}

/// An item of an `export` clause: a function, and how many parameters it has.
#[derive(Drop)]
pub struct Export {
    pub name: Text,
    pub count: usize,
}

/// The head of a module: its name, its imports and exports in clause order, and the name of its main function.
#[derive(Drop)]
pub struct BuiltHead {
    pub name: Text,
    pub imports: List<Import>,
    pub exports: List<Export>,
    pub main: Option<Text>,
}

impl BuiltHead {
    /// Whether an item imports from the module itself.
    fn imports_itself(&self) -> bool
        ensures { result ≡ imports_itself (head_tree self.now) }
    {
        for item in self.imports.as_slice() {
            if name_is(item.module_name.as_bytes(), self.name.as_bytes()) {
                return true;
            }
        }
        false
    }

    /// Whether it imports from other modules alone, and exports no name twice.
    fn is_right(&self, alloc: Global) -> Result<bool, OutOfMemory>
        ensures { IfOk result (λ right. right ≡ is_right (head_tree self.now)) }
    {
        if self.imports_itself() {
            return Ok(false);
        }
        names_are_distinct(alloc, self.exports.as_slice())
    }
}

/// Whether no name is exported twice.
fn names_are_distinct(alloc: Global, exports: &[Export]) -> Result<bool, OutOfMemory>
    ensures { IfOk result (λ distinct. distinct ≡ are_distinct (exported_names (map export_tree exports.now))) }
{
    let mut names = NameTable::new(alloc);
    for export in exports {
        if !names.insert(export.name.as_bytes())? {
            return Ok(false);
        }
    }
    Ok(true)
}

/// The head with this name and these clauses; none where one isn't built, or where two give a main function.
fn with_clauses(alloc: Global, name: &Text, ds: &[Datum]) -> Result<Option<BuiltHead>, OutOfMemory>
    ensures { IfOk result (λ h. option_map head_tree h ≡ clauses name.now (plain_all ds.now)) }
{
    let mut head = BuiltHead {
        name: name.copy(alloc)?,
        imports: List::new(alloc),
        exports: List::new(alloc),
        main: None,
    };
    for d in ds {
        if !head.add_clause(alloc, d)? {
            return Ok(None);
        }
    }
    Ok(Some(head))
}

/// The head `(module NAME clause ...)`; none exactly where the datum isn't one by the clauses that are built.
pub fn read_head(alloc: Global, d: &Datum) -> Result<Option<BuiltHead>, OutOfMemory>
    ensures { IfOk result (λ h. option_map head_tree h ≡ head_of (plain d.now)) }
{
    let Some(ds) = parts(d) else {
        return Ok(None);
    };
    let [word, name, rest @ ..] = ds else {
        return Ok(None);
    };
    if !is_symbol(word, b"module") {
        return Ok(None);
    }
    let Some(name) = untyped_name(name) else {
        return Ok(None);
    };
    let Some(head) = with_clauses(alloc, name, rest)? else {
        return Ok(None);
    };
    if !head.is_right(alloc)? {
        return Ok(None);
    }
    Ok(Some(head))
}
