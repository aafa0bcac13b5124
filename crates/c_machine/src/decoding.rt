// From programs to lines.
ghost use Rattle.std.specs.Prelude.{◌≡◌, [], ◌++◌, map, true, IfOk, OnOk};
ghost use Rattle.std.specs.List.{list_all};
ghost use Rattle.c_tree.specs.Functions.{fun_of, items_of};
ghost use Rattle.c_tree.specs.Pieces.{pieces, piece_of};
ghost use Rattle.c_meaning.specs.Plain.{IsPlain};
ghost use Rattle.c_machine.specs.Decoded.{last_of, code_of, has_distinct, function_of, functions_of, definition_in, definitions, IsDecoded};

use crate::lines::Decoding;
use crate::names::{names_in_function, names_of_functions, place};
use crate::program::{Function, Instr, Line};
use c_check::Places;
use c_tree::{CFun, CItem, CStmt, PieceRef, pieces_in};
use name_table::NameTable;
use scheme_data::{List, OutOfMemory};
use std::alloc::Global;

// What stands at the end: a loop's block begins again there.
fn last(f: &CFun) -> Instr
    ensures { result ≡ last_of (fun_of f.now).code }
{
    match f.stmts.get(0) {
        Some(CStmt::Loop(_, _)) => Instr::Turn,
        _ => Instr::Stop,
    }
}

// The lines of a function with these pieces.
fn code_of_pieces(
    alloc: Global,
    names: &Places,
    funs: &NameTable,
    f: &CFun,
    parts: &[PieceRef<'_>],
) -> Result<List<Line>, OutOfMemory>
    requires { map piece_of parts.now ≡ pieces (fun_of f.now).code [] }
    ensures { IfOk result (λ code. code ≡ code_of names.now funs.now (fun_of f.now).code) }
{
    let end = f.stmts.as_slice().len() + 1;
    let mut decoding = Decoding::new(alloc, end, last(f))?;
    for i in (0..parts.len()).rev() {
        decoding.piece(alloc, names, funs, &parts[i])?;
    }
    decoding.code(alloc)
}

fn code(
    alloc: Global,
    names: &Places,
    funs: &NameTable,
    f: &CFun,
) -> Result<List<Line>, OutOfMemory>
    ensures { IfOk result (λ code. code ≡ code_of names.now funs.now (fun_of f.now).code) }
{
    let shown = pieces_in(alloc, f)?;
    code_of_pieces(alloc, names, funs, f, shown.as_slice())
}

fn function(alloc: Global, funs: &NameTable, f: &CFun) -> Result<Function, OutOfMemory>
    requires { has_distinct f.now ≡ true }
    ensures { IfOk result (λ d. d ≡ function_of funs.now f.now) }
{
    let names = names_in_function(alloc, f)?;
    Ok(Function {
        locals: f.locals.len() as usize,
        code: code(alloc, &names, funs, f)?,
    })
}

fn add_function(
    alloc: Global,
    funs: &NameTable,
    item: &CItem,
    functions: &mut List<Function>,
) -> Result<(), OutOfMemory>
    requires { list_all has_distinct (definition_in item.now) ≡ true }
    ensures { OnOk result (functions.new ≡ functions.old ++ functions_of funs.now (definition_in item.now)) }
{
    match item {
        CItem::Extern(_) => Ok(()),
        CItem::Global(_) => Ok(()),
        CItem::Declared(_, _, _) => Ok(()),
        CItem::Defined(f) => functions.push(function(alloc, funs, f)?),
    }
}

fn all_functions(
    alloc: Global,
    funs: &NameTable,
    items: &[CItem],
) -> Result<List<Function>, OutOfMemory>
    requires { list_all has_distinct (definitions items.now) ≡ true }
    ensures { IfOk result (λ functions. functions ≡ functions_of funs.now (definitions items.now)) }
{
    let mut functions = List::new(alloc);
    for item in items {
        add_function(alloc, funs, item, &mut functions)?;
    }
    Ok(functions)
}

/// The decoded functions of a plain program, and the place of `main`.
pub fn decode(alloc: Global, items: &[CItem]) -> Result<(List<Function>, usize), OutOfMemory>
    requires { IsPlain (items_of items.now) }
    ensures { IfOk result (λ d. IsDecoded items.now d.0 d.1) }
{
    let funs = names_of_functions(alloc, items)?;
    let functions = all_functions(alloc, &funs, items)?;
    let main = place(&funs, b"main");
    Ok((functions, main))
}
