// The statements of a function, piece by piece.
ghost use Rattle.std.specs.Prelude.{map, OnOk, IsTrue};
ghost use Rattle.c_tree.specs.declared.pieces.Piece.TheVariants.{Else, Ended, Cleanup};
ghost use Rattle.c_tree.specs.Names.{is_end_label_name};
ghost use Rattle.c_tree.specs.Functions.{fun_of};
ghost use Rattle.c_tree.specs.Pieces.{piece_of};
ghost use Rattle.c_tree.specs.Spelling.{code_tokens, piece_tokens, pieces_tokens, NamedCode, NamedPiece, NamedPieces};
ghost use Rattle.c_write.specs.Adds.{Adds, anything};

use crate::put::{
    close_block, open_block, put_end, put_indent, put_mark, put_name, put_space, put_word,
};
use crate::statement::put_statement;
use c_tree::{CFun, CStmt, PieceRef, pieces_in};
use scheme_data::{OutOfMemory, Text};
use std::alloc::Global;

// `} else {` and a line end.
fn put_else(out: &mut Text) -> Result<(), OutOfMemory>
    ensures { OnOk result (Adds anything anything out.old out.new (piece_tokens Else)) }
{
    put_mark(out, b'}')?;
    put_space(out)?;
    put_word(out, b"else")?;
    open_block(out)?;
    Ok(())
}

// `} {` and a line end.
fn put_cleanup(out: &mut Text) -> Result<(), OutOfMemory>
    ensures { OnOk result (Adds anything anything out.old out.new (piece_tokens Cleanup)) }
{
    put_mark(out, b'}')?;
    open_block(out)?;
    Ok(())
}

// Where a block ends that a label stands behind: `}`, the label, `:;` and a line end.
fn put_ended(out: &mut Text, label: &Text) -> Result<(), OutOfMemory>
    requires { IsTrue (is_end_label_name label.now) }
    ensures { OnOk result (Adds anything anything out.old out.new (piece_tokens (Ended label.now))) }
{
    put_mark(out, b'}')?;
    put_space(out)?;
    put_name(out, label)?;
    put_mark(out, b':')?;
    put_end(out)?;
    Ok(())
}

fn put_piece(out: &mut Text, piece: &PieceRef<'_>) -> Result<(), OutOfMemory>
    requires { NamedPiece (piece_of piece.now) }
    ensures { OnOk result (Adds anything anything out.old out.new (piece_tokens (piece_of piece.now))) }
{
    match piece {
        PieceRef::Statement(statement) => put_statement(out, statement),
        PieceRef::Else => put_else(out),
        PieceRef::Ended(label) => put_ended(out, label),
        PieceRef::Cleanup => put_cleanup(out),
        PieceRef::End => close_block(out),
    }
}

// How deep a piece's line is: where a block ends, as deep as where it began.
fn depth_of_line(piece: &PieceRef<'_>, depth: u64) -> u64 {
    match piece {
        PieceRef::Statement(_) => depth,
        PieceRef::Else | PieceRef::Ended(_) | PieceRef::Cleanup | PieceRef::End => {
            depth.saturating_sub(1)
        }
    }
}

// How deep the line behind a statement's is.
fn depth_in(statement: &CStmt, depth: u64) -> u64 {
    match statement {
        CStmt::If(_, _, _)
        | CStmt::Loop(_, _)
        | CStmt::Ended(_, _)
        | CStmt::Catch(_, _, _)
        | CStmt::Protect(_, _) => depth.saturating_add(1),
        CStmt::Assign(_, _) | CStmt::Call(_) | CStmt::Return(_) | CStmt::Goto(_) => depth,
    }
}

// How deep the next line is: in a block, a step deeper.
fn depth_after(piece: &PieceRef<'_>, depth: u64) -> u64 {
    match piece {
        PieceRef::Statement(statement) => depth_in(statement, depth),
        PieceRef::Else | PieceRef::Cleanup => depth.saturating_add(1),
        PieceRef::Ended(_) | PieceRef::End => depth,
    }
}

// A line for each piece. The depth counts the function and each open block; it is layout, which no clause speaks of.
fn put_pieces(out: &mut Text, pieces: &[PieceRef<'_>]) -> Result<(), OutOfMemory>
    requires { NamedPieces (map piece_of pieces.now) }
    ensures { OnOk result (Adds anything anything out.old out.new (pieces_tokens (map piece_of pieces.now))) }
{
    let mut depth = 1;
    for piece in pieces {
        depth = depth_of_line(piece, depth);
        put_indent(out, depth)?;
        put_piece(out, piece)?;
        depth = depth_after(piece, depth);
    }
    Ok(())
}

/// The statements of a function, each on a line of its own.
pub fn put_code(alloc: Global, out: &mut Text, function: &CFun) -> Result<(), OutOfMemory>
    requires { NamedCode (fun_of function.now).code }
    ensures { OnOk result (Adds anything anything out.old out.new (code_tokens (fun_of function.now).code)) }
{
    let pieces = pieces_in(alloc, function)?;
    put_pieces(out, pieces.as_slice())?;
    Ok(())
}
