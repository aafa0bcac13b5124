// Declarations and definitions.
ghost use Rattle.std.specs.Prelude.{◌∷◌, OnOk, IsTrue};
ghost use Rattle.c_tree.specs.Lexical.{Word, Mark};
ghost use Rattle.c_tree.specs.Names.{is_function_name, is_global_name, is_local_name};
ghost use Rattle.c_tree.specs.Code.{external, global, declared, defined};
ghost use Rattle.c_tree.specs.Functions.{fun_of, item_of, items_of};
ghost use Rattle.c_tree.specs.Spelling.{type_text, more_types, type_tokens, more_params, param_tokens, local_tokens, item_tokens, items_tokens, NamedVars, NamedItem, NamedItems};
ghost use Rattle.c_write.specs.Adds.{Adds, anything, apart};

use crate::piece::put_code;
use crate::put::{
    close_block, open_block, put_comma, put_end, put_indent, put_mark, put_name, put_space,
    put_word,
};
use c_tree::{CFun, CItem, CTy, CVar};
use scheme_data::{OutOfMemory, Text};
use std::alloc::Global;

fn put_type(out: &mut Text, ty: CTy) -> Result<(), OutOfMemory>
    ensures { OnOk result (Adds anything apart out.old out.new (λ ts. Word (type_text ty) ∷ ts)) }
{
    match ty {
        CTy::Obj => put_word(out, b"obj"),
        CTy::Long => put_word(out, b"long"),
        CTy::Char => put_word(out, b"char"),
        CTy::Int => put_word(out, b"int"),
    }
}

fn put_more_types(out: &mut Text, types: &[CTy]) -> Result<(), OutOfMemory>
    ensures { OnOk result (Adds apart apart out.old out.new (more_types types.now)) }
{
    for ty in types {
        put_comma(out)?;
        put_type(out, *ty)?;
    }
    Ok(())
}

fn put_types(out: &mut Text, types: &[CTy]) -> Result<(), OutOfMemory>
    ensures { OnOk result (Adds anything apart out.old out.new (type_tokens types.now)) }
{
    if types.is_empty() {
        return put_word(out, b"void");
    }
    put_type(out, types[0])?;
    put_more_types(out, &types[1..])?;
    Ok(())
}

fn put_variable(out: &mut Text, variable: &CVar) -> Result<(), OutOfMemory>
    requires { IsTrue (is_local_name variable.now.name) }
    ensures { OnOk result (Adds anything apart out.old out.new
        (λ ts. Word (type_text variable.now.ty) ∷ Word variable.now.name ∷ ts)) }
{
    put_type(out, variable.ty)?;
    put_space(out)?;
    put_name(out, &variable.name)?;
    Ok(())
}

fn put_more_params(out: &mut Text, params: &[CVar]) -> Result<(), OutOfMemory>
    requires { NamedVars params.now }
    ensures { OnOk result (Adds apart apart out.old out.new (more_params params.now)) }
{
    for param in params {
        put_comma(out)?;
        put_variable(out, param)?;
    }
    Ok(())
}

fn put_params(out: &mut Text, params: &[CVar]) -> Result<(), OutOfMemory>
    requires { NamedVars params.now }
    ensures { OnOk result (Adds anything apart out.old out.new (param_tokens params.now)) }
{
    if params.is_empty() {
        return put_word(out, b"void");
    }
    put_variable(out, &params[0])?;
    put_more_params(out, &params[1..])?;
    Ok(())
}

fn put_locals(out: &mut Text, locals: &[CVar]) -> Result<(), OutOfMemory>
    requires { NamedVars locals.now }
    ensures { OnOk result (Adds anything anything out.old out.new (local_tokens locals.now)) }
{
    for local in locals {
        put_indent(out, 1)?;
        put_variable(out, local)?;
        put_end(out)?;
    }
    Ok(())
}

// A type, a name and a parenthesis.
fn put_head(out: &mut Text, ty: CTy, name: &Text) -> Result<(), OutOfMemory>
    requires { IsTrue (is_function_name name.now) }
    ensures { OnOk result (Adds anything anything out.old out.new
        (λ ts. Word (type_text ty) ∷ Word name.now ∷ Mark 40 ∷ ts)) }
{
    put_type(out, ty)?;
    put_space(out)?;
    put_name(out, name)?;
    put_mark(out, b'(')?;
    Ok(())
}

fn put_declaration(out: &mut Text, ty: CTy, name: &Text, params: &[CTy]) -> Result<(), OutOfMemory>
    requires { IsTrue (is_function_name name.now) }
    ensures { OnOk result (Adds anything anything out.old out.new (item_tokens (declared ty name.now params.now))) }
{
    put_head(out, ty, name)?;
    put_types(out, params)?;
    put_mark(out, b')')?;
    put_end(out)?;
    Ok(())
}

fn put_definition(alloc: Global, out: &mut Text, function: &CFun) -> Result<(), OutOfMemory>
    requires { NamedItem (defined (fun_of function.now)) }
    ensures { OnOk result (Adds anything anything out.old out.new (item_tokens (defined (fun_of function.now)))) }
{
    put_head(out, function.result, &function.name)?;
    put_params(out, function.params.as_slice())?;
    put_mark(out, b')')?;
    open_block(out)?;
    put_locals(out, function.locals.as_slice())?;
    put_code(alloc, out, function)?;
    close_block(out)?;
    Ok(())
}

// A global and the end of its line.
fn put_global(out: &mut Text, variable: &CVar) -> Result<(), OutOfMemory>
    requires { IsTrue (is_global_name variable.now.name) }
    ensures { OnOk result (Adds anything anything out.old out.new (item_tokens (global variable.now))) }
{
    put_type(out, variable.ty)?;
    put_space(out)?;
    put_name(out, &variable.name)?;
    put_end(out)?;
    Ok(())
}

fn put_external(out: &mut Text, variable: &CVar) -> Result<(), OutOfMemory>
    requires { IsTrue (is_global_name variable.now.name) }
    ensures { OnOk result (Adds anything anything out.old out.new (item_tokens (external variable.now))) }
{
    put_word(out, b"extern")?;
    put_space(out)?;
    put_global(out, variable)?;
    Ok(())
}

fn put_item(alloc: Global, out: &mut Text, item: &CItem) -> Result<(), OutOfMemory>
    requires { NamedItem (item_of item.now) }
    ensures { OnOk result (Adds anything anything out.old out.new (item_tokens (item_of item.now))) }
{
    match item {
        CItem::Extern(variable) => put_external(out, variable),
        CItem::Global(variable) => put_global(out, variable),
        CItem::Declared(ty, name, params) => put_declaration(out, *ty, name, params.as_slice()),
        CItem::Defined(function) => put_definition(alloc, out, function),
    }
}

/// The items one after another, each with line ends.
pub fn put_items(alloc: Global, out: &mut Text, items: &[CItem]) -> Result<(), OutOfMemory>
    requires { NamedItems (items_of items.now) }
    ensures { OnOk result (Adds anything anything out.old out.new (items_tokens (items_of items.now))) }
{
    for item in items {
        put_item(alloc, out, item)?;
    }
    Ok(())
}
