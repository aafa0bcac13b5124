// The names of other modules' functions that a module calls.
ghost use Rattle.std.specs.Prelude.{◌≡◌, ◌&&◌, not, [], map, IfOk};
ghost use Rattle.scheme_data.specs.Names.{is_same};
ghost use Rattle.scheme_data.specs.Data.{plain, plain_all};
ghost use Rattle.resolver.specs.BuiltHeads.{symbol_of};
ghost use Rattle.name_table.specs.Names.{has_name};
ghost use Rattle.resolver.specs.Trees.{import_tree};
ghost use Rattle.resolver.specs.Names.{is_special};
ghost use Rattle.resolver.specs.Drafts.{imported_names, is_outside, outside_name, outside_in, outside_in_all, outside_in_tops};
ghost use Rattle.resolver.specs.Parts.{top_of, with_first, outside_in_top};

use crate::built_head::Import;
use crate::imports::imported_names;
use crate::names::names_special_form;
use crate::shapes::symbol;
use crate::tops::TopForm;
use name_table::NameTable;
use scheme_data::{Datum, OutOfMemory};
use std::alloc::Global;

/// What decides which names in a form are of other modules' functions: the names that are imported, the functions of the module, and the parameters below which it stands.
#[derive(Clone, Copy)]
struct Outside<'a> {
    imported: &'a NameTable,
    functions: &'a NameTable,
    params: &'a NameTable,
}

impl Outside<'_> {
    /// Whether a name is neither a parameter's nor the word of a special form.
    fn is_free(&self, name: &[u8]) -> bool
        ensures { result ≡ (not (has_name self.now.params.now name.now) && not (is_special name.now)) }
    {
        !self.params.contains(name) && !names_special_form(name)
    }

    /// Whether a name is imported and not that of a function of the module.
    fn is_imported(&self, name: &[u8]) -> bool
        ensures { result ≡ (not (has_name self.now.functions.now name.now) && has_name self.now.imported.now name.now) }
    {
        !self.functions.contains(name) && self.imported.contains(name)
    }

    /// Whether a name that stands first in a form is that of another module's function.
    fn has(&self, name: &[u8]) -> bool
        ensures { result ≡ is_outside self.now.imported.now self.now.functions.now self.now.params.now name.now }
    {
        self.is_free(name) && self.is_imported(name)
    }

    /// Puts what stands first in a form at the end of a table, where it is such a name and isn't there yet.
    fn add(&self, d: &Datum, names: &mut NameTable) -> Result<(), OutOfMemory>
        ensures { IfOk result (λ done. names.new ≡ with_first is_same names.old (outside_name self.now.imported.now self.now.functions.now self.now.params.now (symbol_of (plain d.now)))) }
    {
        let Some(name) = symbol(d) else {
            return Ok(());
        };
        if self.has(name.as_bytes()) {
            names.insert(name.as_bytes())?;
        }
        Ok(())
    }

    /// Puts the names in a form at the end of a table, from left to right, each where it isn't there yet.
    #[cycle(collect)]
    fn collect(&self, d: &Datum, names: &mut NameTable) -> Result<(), OutOfMemory>
        ensures { IfOk result (λ done. names.new ≡ with_first is_same names.old (outside_in self.now.imported.now self.now.functions.now self.now.params.now (plain d.now))) }
    {
        let Datum::List(_, ds) = d else {
            return Ok(());
        };
        let [first, args @ ..] = ds.as_slice() else {
            return Ok(());
        };
        self.add(first, names)?;
        self.collect_all(args, names)
    }

    #[cycle(collect)]
    fn collect_all(&self, ds: &[Datum], names: &mut NameTable) -> Result<(), OutOfMemory>
        ensures { IfOk result (λ done. names.new ≡ with_first is_same names.old (outside_in_all self.now.imported.now self.now.functions.now self.now.params.now (plain_all ds.now))) }
    {
        for d in ds {
            self.collect(d, names)?;
        }
        Ok(())
    }
}

/// Puts the names in a top-level form at the end of a table, from left to right, each where it isn't there yet.
fn collect_top(
    alloc: Global,
    imported: &NameTable,
    functions: &NameTable,
    top: &TopForm<'_>,
    names: &mut NameTable,
) -> Result<(), OutOfMemory>
    ensures { IfOk result (λ done. names.new ≡ with_first is_same names.old (outside_in_top imported.now functions.now (top_of top.now))) }
{
    match top {
        TopForm::Define(d) => {
            let outside = Outside {
                imported,
                functions,
                params: &d.params,
            };
            outside.collect_all(d.body, names)
        }
        TopForm::Evaluate(d) => {
            let outside = Outside {
                imported,
                functions,
                params: &NameTable::new(alloc),
            };
            outside.collect(d, names)
        }
    }
}

/// The names of other modules' functions that the top-level forms call, in order of first use, with these imports and these functions of the module.
pub fn outside_names(
    alloc: Global,
    imports: &[Import],
    functions: &NameTable,
    tops: &[TopForm<'_>],
) -> Result<NameTable, OutOfMemory>
    ensures { IfOk result (λ names. names ≡ with_first is_same [] (outside_in_tops (imported_names (map import_tree imports.now)) functions.now (map top_of tops.now))) }
{
    let imported = imported_names(alloc, imports)?;
    let mut names = NameTable::new(alloc);
    for top in tops {
        collect_top(alloc, &imported, functions, top, &mut names)?;
    }
    Ok(names)
}
