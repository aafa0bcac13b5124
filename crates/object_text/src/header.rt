// The lines before the unit.
ghost use Rattle.std.specs.Prelude.{◌≡◌, ◌++◌, [], IfOk, OnOk, IfSome, IfNone};
ghost use Rattle.iface_text.specs.Format.{ended};
ghost use Rattle.core_tree.specs.WellFormed.{are_ordered};
ghost use Rattle.object_text.specs.Format.{object_tree, header_lines};
ghost use Rattle.object_text.specs.Header.{are_new};
ghost use Rattle.object_text.specs.Headers.{tree_of, AreLines, BeginsWith, OnlyLines, NoLines, OnlyHeader, NoHeader};

use crate::lines::{read_main, write_main};
use crate::names::named_after;
use crate::object::Object;
use crate::parts::{read_run, write_run};
use core_tree::{ImportItem, Use};
use iface_text::Row;
use name_table::NameTable;
use scheme_data::{List, OutOfMemory, Text};
use std::alloc::Global;

/// What the lines before the unit tell, and the text of the unit.
#[derive(Drop)]
pub struct Header<'a> {
    pub module_name: Text,
    pub imports: List<ImportItem>,
    pub uses: List<Use>,
    pub exports: List<Row>,
    pub main: Option<Text>,
    pub unit: &'a [u8],
}

/// Whether what is called comes before what is imported besides.
fn is_ordered(uses: &[Use]) -> bool
    ensures { result ≡ are_ordered uses.now }
{
    let mut needs = false;
    for used in uses {
        match used {
            Use::Need(_, _) => needs = true,
            Use::From(_, _) => {
                if needs {
                    return false;
                }
            }
        }
    }
    true
}

/// Whether no two rows have one name.
fn are_distinct(alloc: Global, rows: &[Row]) -> Result<bool, OutOfMemory>
    ensures { IfOk result (λ distinct. distinct ≡ are_new [] rows.now) }
{
    let mut names = NameTable::new(alloc);
    for row in rows {
        if !names.insert(row.name.as_bytes())? {
            return Ok(false);
        }
    }
    Ok(true)
}

/// What the lines tell one by one; none where they aren't such lines.
fn read_lines<'a>(alloc: Global, bytes: &'a [u8]) -> Result<Option<Header<'a>>, OutOfMemory>
    ensures some { IfOk result (λ header. IfSome header (λ h. AreLines bytes.now (tree_of h []) h.unit.now)) }
    ensures only { IfOk result (λ header. IfSome header (λ h. OnlyLines bytes.now h)) }
    ensures none { IfOk result (λ header. IfNone header (NoLines bytes.now)) }
{
    let Some(named) = named_after(bytes, b"bigloo-object 1\nmodule ") else {
        return Ok(None);
    };
    let Some(rest) = named.rest.strip_prefix(b"\n") else {
        return Ok(None);
    };
    let imports = read_run::<ImportItem>(alloc, rest)?;
    let uses = read_run::<Use>(alloc, imports.rest)?;
    let exports = read_run::<Row>(alloc, uses.rest)?;
    let main = read_main(alloc, exports.rest)?;
    let Some(unit) = main.rest.strip_prefix(b"code\n") else {
        return Ok(None);
    };
    let module_name = Text::from_bytes(alloc, named.name)?;
    Ok(Some(Header {
        module_name,
        imports: imports.parts,
        uses: uses.parts,
        exports: exports.parts,
        main: main.name,
        unit,
    }))
}

/// The header with which the bytes begin; none where they begin with no object's.
pub fn read_header<'a>(alloc: Global, bytes: &'a [u8]) -> Result<Option<Header<'a>>, OutOfMemory>
    ensures some { IfOk result (λ header. IfSome header (λ h. BeginsWith bytes.now (tree_of h []) h.unit.now)) }
    ensures only { IfOk result (λ header. IfSome header (λ h. OnlyHeader bytes.now h)) }
    ensures none { IfOk result (λ header. IfNone header (NoHeader bytes.now)) }
{
    let Some(header) = read_lines(alloc, bytes)? else {
        return Ok(None);
    };
    if !is_ordered(header.uses.as_slice()) {
        return Ok(None);
    }
    if !are_distinct(alloc, header.exports.as_slice())? {
        return Ok(None);
    }
    Ok(Some(header))
}

/// Adds the lines before the unit at the end of a text.
pub fn write_header(text: &mut Text, o: &Object) -> Result<(), OutOfMemory>
    ensures { OnOk result (text.new ≡ text.old ++ ended (header_lines (object_tree o.now))) }
{
    text.extend(b"bigloo-object 1\nmodule ")?;
    text.extend(o.module_name.as_bytes())?;
    text.push(b'\n')?;
    write_run(text, o.imports.as_slice())?;
    write_run(text, o.uses.as_slice())?;
    write_run(text, o.exports.as_slice())?;
    write_main(text, &o.main)?;
    text.extend(b"code\n")?;
    Ok(())
}
