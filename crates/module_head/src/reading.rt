// A head that is read part by part, until the first breach.
ghost use Rattle.std.specs.Prelude.{◌≡◌, map};
ghost use Rattle.std.specs.Option.{option_copied};
ghost use Rattle.scheme_data.specs.Forms.{form};
ghost use Rattle.module_head.specs.Heads.{import_part, export_part, static_part, extern_part, only_name, main_part};
ghost use Rattle.module_head.specs.Shapes.{forms_of};
ghost use Rattle.module_head.specs.Steps.{Follows, declare, take, take_all, item_part, bare};

use crate::entries::entry;
use crate::error::HeadErr;
use crate::head::{Head, MainClause};
use crate::items::{extern_item, import_item};
use crate::shapes::{place, symbol};
use name_table::NameTable;
use scheme_data::{Datum, List, Place, Text};
use std::alloc::Global;

/// The clauses that have items.
#[derive(Clone, Copy)]
pub enum ItemKind {
    Import,
    Export,
    Static,
    Extern,
}

/// What was read of a head, with a table of the names that it declares.
#[derive(Drop)]
pub struct Reading {
    pub head: Head,
    pub declared: NameTable,
}

/// The name of the only datum; none where it is no symbol, or there are more or fewer.
fn only_name(ds: &[Datum]) -> Option<&Text>
    ensures { option_copied result ≡ only_name (forms_of ds.now) }
{
    if ds.len() != 1 {
        return None;
    }
    symbol(&ds[0])
}

impl Reading {
    /// The reading of a head of which only the name is known.
    pub fn new(alloc: Global, name: Text) -> Reading
        ensures { result ≡ bare name }
    {
        Reading {
            head: Head {
                name,
                imports: List::new(alloc),
                exports: List::new(alloc),
                statics: List::new(alloc),
                externs: List::new(alloc),
                main: None,
            },
            declared: NameTable::new(alloc),
        }
    }

    fn declare(&mut self, alloc: Global, name: &Text) -> Result<(), HeadErr>
        ensures { Follows (declare self.old name.now) result self.new }
    {
        if !self.declared.insert(name.as_bytes())? {
            return Err(HeadErr::Duplicate(name.copy(alloc)?));
        }
        Ok(())
    }

    fn add_import(&mut self, alloc: Global, d: &Datum) -> Result<(), HeadErr>
        ensures { Follows (take self.old (import_part (form d.now))) result self.new }
    {
        let Some(item) = import_item(alloc, d)? else {
            return Err(HeadErr::Header(place(d)));
        };
        if item.module_name.as_bytes() == self.head.name.as_bytes() {
            return Err(HeadErr::Header(item.at));
        }
        self.head.imports.push(item)?;
        Ok(())
    }

    fn add_export(&mut self, alloc: Global, d: &Datum) -> Result<(), HeadErr>
        ensures { Follows (take self.old (export_part (form d.now))) result self.new }
    {
        let Some(item) = entry(alloc, d)? else {
            return Err(HeadErr::Header(place(d)));
        };
        self.declare(alloc, &item.name)?;
        self.head.exports.push(item)?;
        Ok(())
    }

    fn add_static(&mut self, alloc: Global, d: &Datum) -> Result<(), HeadErr>
        ensures { Follows (take self.old (static_part (form d.now))) result self.new }
    {
        let Some(item) = entry(alloc, d)? else {
            return Err(HeadErr::Header(place(d)));
        };
        self.declare(alloc, &item.name)?;
        self.head.statics.push(item)?;
        Ok(())
    }

    fn add_extern(&mut self, alloc: Global, d: &Datum) -> Result<(), HeadErr>
        ensures { Follows (take self.old (extern_part (form d.now))) result self.new }
    {
        let Some(item) = extern_item(alloc, d)? else {
            return Err(HeadErr::Header(place(d)));
        };
        self.declare(alloc, &item.name)?;
        self.head.externs.push(item)?;
        Ok(())
    }

    fn add_item(&mut self, alloc: Global, kind: ItemKind, d: &Datum) -> Result<(), HeadErr>
        ensures { Follows (take self.old (item_part kind (form d.now))) result self.new }
    {
        match kind {
            ItemKind::Import => self.add_import(alloc, d),
            ItemKind::Export => self.add_export(alloc, d),
            ItemKind::Static => self.add_static(alloc, d),
            ItemKind::Extern => self.add_extern(alloc, d),
        }
    }

    /// Adds the items of a clause of this kind, until the first breach.
    pub fn add_items(&mut self, alloc: Global, kind: ItemKind, ds: &[Datum]) -> Result<(), HeadErr>
        ensures { Follows (take_all (map (λ d. item_part kind (form d)) ds.now) self.old) result self.new }
    {
        for d in ds {
            self.add_item(alloc, kind, d)?;
        }
        Ok(())
    }

    /// Adds the main function of the `main` clause at a place, from what stands behind the word.
    pub fn add_main(&mut self, alloc: Global, at: Place, ds: &[Datum]) -> Result<(), HeadErr>
        ensures { Follows (take self.old (main_part at (forms_of ds.now))) result self.new }
    {
        let Some(name) = only_name(ds) else {
            return Err(HeadErr::Header(at));
        };
        if self.head.main.is_some() {
            return Err(HeadErr::Header(at));
        }
        self.head.main = Some(MainClause {
            at,
            name: name.copy(alloc)?,
        });
        Ok(())
    }
}
