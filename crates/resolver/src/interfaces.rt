// The rows of interfaces, each found by the names of its module and of itself.
ghost use Rattle.std.specs.Prelude.{◌≡◌, IfOk, map};
ghost use Rattle.std.specs.Option.{option_copied};
ghost use Rattle.iface_text.specs.Format.{iface_tree};
ghost use Rattle.resolver.specs.Elaboration.{row_for};
ghost use Rattle.resolver.specs.UseTables.{row_named, HaveSameRows, OfferSameRows};

use built_table::Ty;
use iface_text::{Iface, Row, RowKind};
use scheme_data::{List, OutOfMemory};
use std::alloc::Global;
use std::collections::BTreeMap;
use std::marker::Model;

/// The rows of an interface, each found by its name. Of two rows of one name the first counts.
#[derive(Drop)]
struct Rows<'a> {
    by_name: BTreeMap<&'a [u8], &'a Row>,
}

impl<'a> Model for Rows<'a> {
    ghost use Rattle.std.specs.Prelude.{List};
    ghost use Rattle.iface_text.specs.declared.interface.Row.{Row};
    ghost use Rattle.resolver.specs.UseTables.{rows_of, AreNamed};

    ghost Value = { List Row };

    ghost view = { λ t. rows_of t.by_name.entries };

    ghost invariant = { λ t. AreNamed t.by_name.entries };
}

impl<'a> Rows<'a> {
    fn new(alloc: Global, rows: &'a [Row]) -> Result<Rows<'a>, OutOfMemory>
        ensures { IfOk result (λ t. HaveSameRows t rows.now) }
    {
        let mut by_name = BTreeMap::new(alloc);
        // The last row comes first, so that of two rows of one name the first stays.
        for i in (0..rows.len()).rev() {
            let row = &rows[i];
            by_name.insert(row.name.as_bytes(), row)?;
        }
        Ok(Rows { by_name })
    }

    fn row(&self, name: &[u8]) -> Option<&'a Row>
        ensures { option_copied result ≡ row_named self.now name.now }
    {
        self.by_name.get(name).copied()
    }
}

/// The rows of interfaces, each found by the names of its module and of itself. Of two interfaces of one module the first counts.
#[derive(Drop)]
pub struct Interfaces<'a> {
    modules: BTreeMap<&'a [u8], Rows<'a>>,
}

impl<'a> Model for Interfaces<'a> {
    ghost use Rattle.std.specs.Prelude.{List};
    ghost use Rattle.iface_text.specs.Format.{IfaceTree};
    ghost use Rattle.resolver.specs.UseTables.{ifaces_of};

    ghost Value = { List IfaceTree };

    ghost view = { λ t. ifaces_of t.modules.entries };
}

impl<'a> Interfaces<'a> {
    /// The table of these interfaces.
    pub fn new(alloc: Global, ifaces: &'a [Iface]) -> Result<Interfaces<'a>, OutOfMemory>
        ensures { IfOk result (λ t. OfferSameRows t (map iface_tree ifaces.now)) }
    {
        let mut modules = BTreeMap::new(alloc);
        // The last interface comes first, so that of two of one module the first stays.
        for i in (0..ifaces.len()).rev() {
            let iface = &ifaces[i];
            let rows = Rows::new(alloc, iface.rows.as_slice())?;
            modules.insert(iface.module_name.as_bytes(), rows)?;
        }
        Ok(Interfaces { modules })
    }

    /// The row of a name of a module; none where the module has no interface, or its interface no such row.
    pub fn row(&self, module_name: &[u8], name: &[u8]) -> Option<&'a Row>
        ensures { option_copied result ≡ row_for self.now module_name.now name.now }
    {
        self.modules.get(module_name)?.row(name)
    }
}

fn copied(alloc: Global, types: &[Ty]) -> Result<List<Ty>, OutOfMemory>
    ensures { IfOk result (λ copy. copy ≡ types.now) }
{
    let mut copy = List::new(alloc);
    for t in types {
        copy.push(*t)?;
    }
    Ok(copy)
}

/// A copy of a row.
pub fn copy_row(alloc: Global, row: &Row) -> Result<Row, OutOfMemory>
    ensures { IfOk result (λ copy. copy ≡ row.now) }
{
    let RowKind::Fun(params, gives) = &row.kind;
    Ok(Row {
        name: row.name.copy(alloc)?,
        kind: RowKind::Fun(copied(alloc, params.as_slice())?, *gives),
    })
}
