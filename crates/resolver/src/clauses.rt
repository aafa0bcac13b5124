// The clauses of a head, each added behind those before it.
ghost use Rattle.std.specs.Prelude.{◌≡◌, if◌then◌else◌, IfOk, Some, None};
ghost use Rattle.std.specs.Option.{option_copied};
ghost use Rattle.scheme_data.specs.Data.{plain, plain_all};
ghost use Rattle.resolver.specs.BuiltHeads.{main_name, import_items, export_items};
ghost use Rattle.resolver.specs.Forwards.{main_behind, imports_behind, exports_behind, clause_behind};
ghost use Rattle.resolver.specs.Trees.{head_tree};

use crate::built_head::BuiltHead;
use crate::items::{export_item, import_item};
use crate::shapes::{is_symbol, parts, untyped_name};
use scheme_data::{Datum, OutOfMemory, Text};
use std::alloc::Global;

/// The f of `(main f)`, from what stands behind the word.
fn main_name(ds: &[Datum]) -> Option<&Text>
    ensures { option_copied result ≡ main_name (plain_all ds.now) }
{
    if ds.len() != 1 {
        return None;
    }
    untyped_name(&ds[0])
}

impl BuiltHead {
    /// Takes the main function of a `main` clause; not where there is one, or where the clause names none.
    fn add_main(&mut self, alloc: Global, ds: &[Datum]) -> Result<bool, OutOfMemory>
        ensures { IfOk result (λ added. (if added then Some (head_tree self.new) else None) ≡ main_behind (head_tree self.old) (main_name (plain_all ds.now))) }
    {
        if self.main.is_some() {
            return Ok(false);
        }
        let Some(name) = main_name(ds) else {
            return Ok(false);
        };
        self.main = Some(name.copy(alloc)?);
        Ok(true)
    }

    /// Adds the items of an `import` clause at the end; not where one is another datum.
    fn add_imports(&mut self, alloc: Global, items: &[Datum]) -> Result<bool, OutOfMemory>
        ensures { IfOk result (λ added. (if added then Some (head_tree self.new) else None) ≡ imports_behind (head_tree self.old) (import_items (plain_all items.now))) }
    {
        for d in items {
            let Some(item) = import_item(alloc, d)? else {
                return Ok(false);
            };
            self.imports.push(item)?;
        }
        Ok(true)
    }

    /// Adds the items of an `export` clause at the end; not where one is another datum.
    fn add_exports(&mut self, alloc: Global, items: &[Datum]) -> Result<bool, OutOfMemory>
        ensures { IfOk result (λ added. (if added then Some (head_tree self.new) else None) ≡ exports_behind (head_tree self.old) (export_items (plain_all items.now))) }
    {
        for d in items {
            let Some(item) = export_item(alloc, d)? else {
                return Ok(false);
            };
            self.exports.push(item)?;
        }
        Ok(true)
    }

    /// Adds a clause behind those that were read; not where it is none that is built, or a second main function.
    pub(crate) fn add_clause(&mut self, alloc: Global, d: &Datum) -> Result<bool, OutOfMemory>
        ensures { IfOk result (λ added. (if added then Some (head_tree self.new) else None) ≡ clause_behind (head_tree self.old) (plain d.now)) }
    {
        let Some(ds) = parts(d) else {
            return Ok(false);
        };
        let [word, items @ ..] = ds else {
            return Ok(false);
        };
        if is_symbol(word, b"main") {
            return self.add_main(alloc, items);
        }
        if is_symbol(word, b"import") {
            return self.add_imports(alloc, items);
        }
        if is_symbol(word, b"export") {
            return self.add_exports(alloc, items);
        }
        Ok(false)
    }
}
