// The parts of a header, each by itself, both ways.
ghost use Rattle.std.specs.Prelude.{◌≡◌, ◌<◌, ◌++◌, ◌∷◌, length, IfOk, OnOk, IfSome, IfNone};
ghost use Rattle.scheme_data.specs.Symbols.{IsSymbol};
ghost use Rattle.core_tree.specs.WellFormed.{IsImport};
ghost use Rattle.object_text.specs.Format.{IsUseRow};
ghost use Rattle.object_text.specs.Header.{name_text, import_text, use_text, row_text, export_text, EndsName, IsUntypedRow, IsUsed, NotUsed, main_text, IsMainRead};
ghost use Rattle.object_text.specs.Parts.{IsFirst, NoFirst, Anything};

use crate::names::named_after;
use crate::parts::{First, read_run, write_run};
use core_tree::{ImportItem, Use};
use iface_text::{Row, cut_at, read_row, write_row};
use scheme_data::{OutOfMemory, Text};
use std::alloc::Global;

/// What follows a word: a module's name, a row, and what is left.
#[derive(Drop)]
struct Used<'a> {
    module_name: Text,
    row: Row,
    rest: &'a [u8],
}

/// The main function's name, if there is one, and what follows its line.
#[derive(Drop)]
pub struct MainRead<'a> {
    pub name: Option<Text>,
    pub rest: &'a [u8],
}

/// The name after a blank; none where there is no blank, or no name.
pub fn read_name<'a>(alloc: Global, bytes: &'a [u8]) -> Result<Option<First<'a, Text>>, OutOfMemory>
    ensures some { IfOk result (λ first. IfSome first (λ f. IsFirst name_text IsSymbol EndsName bytes.now f.part f.rest.now)) }
    ensures shorter { IfOk result (λ first. IfSome first (λ f. length f.rest.now < length bytes.now)) }
    ensures none { IfOk result (λ first. IfNone first (NoFirst name_text IsSymbol EndsName bytes.now)) }
{
    let Some(named) = named_after(bytes, b" ") else {
        return Ok(None);
    };
    let part = Text::from_bytes(alloc, named.name)?;
    Ok(Some(First {
        part,
        rest: named.rest,
    }))
}

/// Adds a blank and the name at the end of a text.
pub fn write_name(text: &mut Text, name: &Text) -> Result<(), OutOfMemory>
    ensures { OnOk result (text.new ≡ text.old ++ name_text name.now) }
{
    text.push(b' ')?;
    text.extend(name.as_bytes())
}

/// The item of an import line; none where there is no such line.
pub fn read_import<'a>(
    alloc: Global,
    bytes: &'a [u8],
) -> Result<Option<First<'a, ImportItem>>, OutOfMemory>
    ensures some { IfOk result (λ first. IfSome first (λ f. IsFirst import_text IsImport Anything bytes.now f.part f.rest.now)) }
    ensures shorter { IfOk result (λ first. IfSome first (λ f. length f.rest.now < length bytes.now)) }
    ensures none { IfOk result (λ first. IfNone first (NoFirst import_text IsImport Anything bytes.now)) }
{
    let Some(named) = named_after(bytes, b"import ") else {
        return Ok(None);
    };
    let names = read_run::<Text>(alloc, named.rest)?;
    if names.parts.len() == 0 {
        return Ok(None);
    }
    let Some(rest) = names.rest.strip_prefix(b"\n") else {
        return Ok(None);
    };
    let module_name = Text::from_bytes(alloc, named.name)?;
    Ok(Some(First {
        part: ImportItem {
            module_name,
            names: names.parts,
        },
        rest,
    }))
}

/// Adds the item's line at the end of a text.
pub fn write_import(text: &mut Text, item: &ImportItem) -> Result<(), OutOfMemory>
    ensures { OnOk result (text.new ≡ text.old ++ import_text item.now) }
{
    text.extend(b"import ")?;
    text.extend(item.module_name.as_bytes())?;
    write_run(text, item.names.as_slice())?;
    text.push(b'\n')?;
    Ok(())
}

/// The row of a line; none where there is no such line.
fn read_row_line<'a>(alloc: Global, bytes: &'a [u8]) -> Result<Option<First<'a, Row>>, OutOfMemory>
    ensures some { IfOk result (λ first. IfSome first (λ f. IsFirst row_text IsUntypedRow Anything bytes.now f.part f.rest.now)) }
    ensures none { IfOk result (λ first. IfNone first (NoFirst row_text IsUntypedRow Anything bytes.now)) }
{
    let Some(cut) = cut_at(bytes, b'\n') else {
        return Ok(None);
    };
    let Some(part) = read_row(alloc, cut.before)? else {
        return Ok(None);
    };
    Ok(Some(First {
        part,
        rest: cut.after,
    }))
}

/// Adds the row's line at the end of a text.
fn write_row_line(text: &mut Text, row: &Row) -> Result<(), OutOfMemory>
    ensures { OnOk result (text.new ≡ text.old ++ row_text row.now) }
{
    write_row(text, row)?;
    text.push(b'\n')
}

/// The module's name and the row of a line with this word; none where there is no such line.
fn read_used<'a>(
    alloc: Global,
    bytes: &'a [u8],
    front: &[u8],
) -> Result<Option<Used<'a>>, OutOfMemory>
    ensures some { IfOk result (λ used. IfSome used (λ u. IsUsed bytes.now front.now u.module_name u.row u.rest.now)) }
    ensures none { IfOk result (λ used. IfNone used (NotUsed bytes.now front.now)) }
{
    let Some(named) = named_after(bytes, front) else {
        return Ok(None);
    };
    let Some(after) = named.rest.strip_prefix(b" ") else {
        return Ok(None);
    };
    let Some(row) = read_row_line(alloc, after)? else {
        return Ok(None);
    };
    let module_name = Text::from_bytes(alloc, named.name)?;
    Ok(Some(Used {
        module_name,
        row: row.part,
        rest: row.rest,
    }))
}

/// What a use line or a need line tells; none where there is no such line.
pub fn read_use<'a>(alloc: Global, bytes: &'a [u8]) -> Result<Option<First<'a, Use>>, OutOfMemory>
    ensures some { IfOk result (λ first. IfSome first (λ f. IsFirst use_text IsUseRow Anything bytes.now f.part f.rest.now)) }
    ensures shorter { IfOk result (λ first. IfSome first (λ f. length f.rest.now < length bytes.now)) }
    ensures none { IfOk result (λ first. IfNone first (NoFirst use_text IsUseRow Anything bytes.now)) }
{
    if let Some(used) = read_used(alloc, bytes, b"use ")? {
        return Ok(Some(First {
            part: Use::From(used.module_name, used.row),
            rest: used.rest,
        }));
    }
    let Some(used) = read_used(alloc, bytes, b"need ")? else {
        return Ok(None);
    };
    Ok(Some(First {
        part: Use::Need(used.module_name, used.row),
        rest: used.rest,
    }))
}

fn write_used(
    text: &mut Text,
    front: &[u8],
    module_name: &Text,
    row: &Row,
) -> Result<(), OutOfMemory>
    ensures { OnOk result (text.new ≡ text.old ++ (front.now ++ (module_name.now ++ (32 ∷ row_text row.now)))) }
{
    text.extend(front)?;
    text.extend(module_name.as_bytes())?;
    text.push(b' ')?;
    write_row_line(text, row)
}

/// Adds the line of a use at the end of a text.
pub fn write_use(text: &mut Text, used: &Use) -> Result<(), OutOfMemory>
    ensures { OnOk result (text.new ≡ text.old ++ use_text used.now) }
{
    match used {
        Use::From(module_name, row) => write_used(text, b"use ", module_name, row),
        Use::Need(module_name, row) => write_used(text, b"need ", module_name, row),
    }
}

/// The row of an export line; none where there is no such line.
pub fn read_export<'a>(
    alloc: Global,
    bytes: &'a [u8],
) -> Result<Option<First<'a, Row>>, OutOfMemory>
    ensures some { IfOk result (λ first. IfSome first (λ f. IsFirst export_text IsUntypedRow Anything bytes.now f.part f.rest.now)) }
    ensures shorter { IfOk result (λ first. IfSome first (λ f. length f.rest.now < length bytes.now)) }
    ensures none { IfOk result (λ first. IfNone first (NoFirst export_text IsUntypedRow Anything bytes.now)) }
{
    let Some(after) = bytes.strip_prefix(b"export ") else {
        return Ok(None);
    };
    read_row_line(alloc, after)
}

/// Adds the line of an export at the end of a text.
pub fn write_export(text: &mut Text, row: &Row) -> Result<(), OutOfMemory>
    ensures { OnOk result (text.new ≡ text.old ++ export_text row.now) }
{
    text.extend(b"export ")?;
    write_row_line(text, row)
}

/// The main function of a main line; no function and all bytes where there is no such line.
pub fn read_main<'a>(alloc: Global, bytes: &'a [u8]) -> Result<MainRead<'a>, OutOfMemory>
    ensures { IfOk result (λ m. IsMainRead bytes.now m.name m.rest.now) }
{
    let Some(named) = named_after(bytes, b"main fun ") else {
        return Ok(MainRead {
            name: None,
            rest: bytes,
        });
    };
    let Some(rest) = named.rest.strip_prefix(b" (obj) obj\n".as_slice()) else {
        return Ok(MainRead {
            name: None,
            rest: bytes,
        });
    };
    let name = Text::from_bytes(alloc, named.name)?;
    Ok(MainRead {
        name: Some(name),
        rest,
    })
}

/// Adds the line of the main function, if there is one, at the end of a text.
pub fn write_main(text: &mut Text, main: &Option<Text>) -> Result<(), OutOfMemory>
    ensures { OnOk result (text.new ≡ text.old ++ main_text main.now) }
{
    let Some(name) = main else {
        return Ok(());
    };
    text.extend(b"main fun ")?;
    text.extend(name.as_bytes())?;
    text.extend(b" (obj) obj\n")
}
