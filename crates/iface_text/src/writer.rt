// An interface's text, written row by row.
ghost use Rattle.std.specs.Prelude.{◌≡◌, ◌++◌, IfOk, OnOk};
ghost use Rattle.built_table.specs.Table.{type_name};
ghost use Rattle.iface_text.specs.Format.{iface_tree, spelling, row_line, signature, types_text};

use crate::interface::{Iface, Row, RowKind};
use built_table::Ty;
use scheme_data::{OutOfMemory, Text};
use std::alloc::Global;

/// The text of the interface.
pub fn write(alloc: Global, i: &Iface) -> Result<Text, OutOfMemory>
    ensures { IfOk result (λ text. text ≡ spelling (iface_tree i.now)) }
{
    let mut text = Text::from_bytes(alloc, b"bigloo-interface 1\nmodule ")?;
    text.extend(i.module_name.as_bytes())?;
    text.push(b'\n')?;
    for row in i.rows.as_slice() {
        write_row(&mut text, row)?;
        text.push(b'\n')?;
    }
    text.extend(b"end\n")?;
    Ok(text)
}

/// Adds the row's line at the end of a text, without the line's end.
pub fn write_row(text: &mut Text, row: &Row) -> Result<(), OutOfMemory>
    ensures { OnOk result (text.new ≡ text.old ++ row_line row.now) }
{
    text.extend(b"fun ")?;
    text.extend(row.name.as_bytes())?;
    match &row.kind {
        RowKind::Fun(params, gives) => write_signature(text, params.as_slice(), *gives),
    }
}

fn write_signature(text: &mut Text, params: &[Ty], gives: Ty) -> Result<(), OutOfMemory>
    ensures { OnOk result (text.new ≡ text.old ++ signature params.now gives) }
{
    text.extend(b" (")?;
    write_types(text, params)?;
    text.extend(b") ")?;
    text.extend(name_of_type(gives))?;
    Ok(())
}

/// The types, with a blank between two.
fn write_types(text: &mut Text, types: &[Ty]) -> Result<(), OutOfMemory>
    ensures { OnOk result (text.new ≡ text.old ++ types_text types.now) }
{
    let Some((first, others)) = types.split_first() else {
        return Ok(());
    };
    text.extend(name_of_type(*first))?;
    for ty in others {
        text.push(b' ')?;
        text.extend(name_of_type(*ty))?;
    }
    Ok(())
}

fn name_of_type(ty: Ty) -> &'static [u8]
    ensures { result.now ≡ type_name ty }
{
    match ty {
        Ty::Obj => b"obj",
        Ty::Long => b"long",
        Ty::Bool => b"bool",
    }
}
