// The names that are used in bodies.
ghost use Rattle.std.specs.Prelude.{◌≡◌, [], ◌∷◌, ℕ, List, map, IfOk, OnOk};
ghost use Rattle.std.specs.List.{list_all, flat_map};
ghost use Rattle.c_tree.specs.Functions.{fun_of, item_of, items_of};
ghost use Rattle.c_tree.specs.Pieces.{opening, piece_of};
ghost use Rattle.c_meaning.specs.Breaches.{called_in};
ghost use Rattle.c_meaning.specs.Checked.{used_in_atom, used_in_argument, used_in_call, used_in_expr, used_in, used_by};
ghost use Rattle.c_check.specs.Used.{begins_as_local, is_left_out, stands_out, IsUsed, IsUsedBy, piece_used, used_pieces};

use crate::items::name_of;
use crate::steps::note;
use c_tree::{CArg, CAtom, CCall, CExpr, CFun, CItem, CStmt, Callee, PieceRef, pieces_in};
use name_table::NameTable;
use scheme_data::OutOfMemory;
use std::alloc::Global;

/// Names that are used. Those that begin as locals do are left out where no item has such a name.
#[derive(Drop)]
pub struct Noted {
    pub names: NameTable,
    pub skips: bool,
}

fn begins_as_local(name: &[u8]) -> bool
    ensures { result ≡ begins_as_local name.now }
{
    match name.first() {
        None => false,
        Some(byte) => *byte == b'x',
    }
}

fn note_name(used: &mut Noted, name: &[u8]) -> Result<(), OutOfMemory>
    ensures { OnOk result (IsUsed used.old (name.now ∷ []) used.new) }
{
    if used.skips && begins_as_local(name) {
        return Ok(());
    }
    note(&mut used.names, name)?;
    Ok(())
}

fn note_callee(used: &mut Noted, callee: &Callee) -> Result<(), OutOfMemory>
    ensures { OnOk result (IsUsed used.old (called_in callee.now) used.new) }
{
    match callee {
        Callee::Fun(name) => note_name(used, name.as_bytes()),
        Callee::Op(_) => Ok(()),
    }
}

fn note_atom(used: &mut Noted, atom: &CAtom) -> Result<(), OutOfMemory>
    ensures { OnOk result (IsUsed used.old (used_in_atom atom.now) used.new) }
{
    match atom {
        CAtom::Name(x) => note_name(used, x.as_bytes()),
        CAtom::Int(_) => Ok(()),
        CAtom::Sym(_) => Ok(()),
        CAtom::False => Ok(()),
        CAtom::True => Ok(()),
        CAtom::Nil => Ok(()),
        CAtom::Unspec => Ok(()),
        CAtom::Eof => Ok(()),
    }
}

fn note_argument(used: &mut Noted, arg: &CArg) -> Result<(), OutOfMemory>
    ensures { OnOk result (IsUsed used.old (used_in_argument arg.now) used.new) }
{
    match arg {
        CArg::Atom(atom) => note_atom(used, atom),
        CArg::Str(_) => Ok(()),
        CArg::Entry(name) => note_name(used, name.as_bytes()),
    }
}

fn note_arguments(used: &mut Noted, args: &[CArg]) -> Result<(), OutOfMemory>
    ensures { OnOk result (IsUsed used.old (flat_map used_in_argument args.now) used.new) }
{
    for arg in args {
        note_argument(used, arg)?;
    }
    Ok(())
}

fn note_call(used: &mut Noted, call: &CCall) -> Result<(), OutOfMemory>
    ensures { OnOk result (IsUsed used.old (used_in_call call.now) used.new) }
{
    note_callee(used, &call.callee)?;
    note_arguments(used, call.args.as_slice())?;
    Ok(())
}

fn note_expression(used: &mut Noted, e: &CExpr) -> Result<(), OutOfMemory>
    ensures { OnOk result (IsUsed used.old (used_in_expr e.now) used.new) }
{
    match e {
        CExpr::Atom(atom) => note_atom(used, atom),
        CExpr::Call(call) => note_call(used, call),
    }
}

fn note_assignment(used: &mut Noted, x: &[u8], e: &CExpr) -> Result<(), OutOfMemory>
    ensures { OnOk result (IsUsed used.old (x.now ∷ used_in_expr e.now) used.new) }
{
    note_name(used, x)?;
    note_expression(used, e)?;
    Ok(())
}

fn note_statement(used: &mut Noted, statement: &CStmt) -> Result<(), OutOfMemory>
    ensures { OnOk result (IsUsed used.old (piece_used (opening statement.now)) used.new) }
{
    match statement {
        CStmt::Assign(x, e) => note_assignment(used, x.as_bytes(), e),
        CStmt::Call(call) => note_call(used, call),
        CStmt::Return(e) => note_expression(used, e),
        CStmt::If(condition, _, _) => note_expression(used, condition),
        CStmt::Loop(_, _) => Ok(()),
        CStmt::Ended(_, _) => Ok(()),
        CStmt::Goto(_) => Ok(()),
        CStmt::Catch(_, _, _) => Ok(()),
        CStmt::Protect(_, _) => Ok(()),
    }
}

fn note_piece(used: &mut Noted, piece: &PieceRef<'_>) -> Result<(), OutOfMemory>
    ensures { OnOk result (IsUsed used.old (piece_used (piece_of piece.now)) used.new) }
{
    match piece {
        PieceRef::Statement(statement) => note_statement(used, statement),
        PieceRef::Else => Ok(()),
        PieceRef::Ended(_) => Ok(()),
        PieceRef::Cleanup => Ok(()),
        PieceRef::End => Ok(()),
    }
}

fn note_pieces(used: &mut Noted, pieces: &[PieceRef<'_>]) -> Result<(), OutOfMemory>
    ensures { OnOk result (IsUsed used.old (used_pieces (map piece_of pieces.now)) used.new) }
{
    for piece in pieces {
        note_piece(used, piece)?;
    }
    Ok(())
}

fn note_body(alloc: Global, used: &mut Noted, f: &CFun) -> Result<(), OutOfMemory>
    ensures { OnOk result (IsUsed used.old (used_in (fun_of f.now).code) used.new) }
{
    let pieces = pieces_in(alloc, f)?;
    note_pieces(used, pieces.as_slice())?;
    Ok(())
}

fn note_item(alloc: Global, used: &mut Noted, item: &CItem) -> Result<(), OutOfMemory>
    ensures { OnOk result (IsUsed used.old (used_by (item_of item.now)) used.new) }
{
    match item {
        CItem::Extern(_) => Ok(()),
        CItem::Global(_) => Ok(()),
        CItem::Declared(_, _, _) => Ok(()),
        CItem::Defined(f) => note_body(alloc, used, f),
    }
}

fn stands_out(item: &CItem) -> bool
    ensures { result ≡ stands_out item.now }
{
    !begins_as_local(name_of(item))
}

fn all_stand_out(items: &[CItem]) -> bool
    ensures { result ≡ list_all stands_out items.now }
{
    items.iter().all(|item| stands_out(item))
}

/// The names that the bodies of a text use, where it has items of these names.
pub fn used_names(alloc: Global, items: &[CItem]) -> Result<NameTable, OutOfMemory>
    ensures { IfOk result (IsUsedBy items.now) }
{
    let mut used = Noted {
        names: NameTable::new(alloc),
        skips: all_stand_out(items),
    };
    for item in items {
        note_item(alloc, &mut used, item)?;
    }
    Ok(used.names)
}
