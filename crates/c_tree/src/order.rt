// From pieces to statements in one list, and back.
ghost use Rattle.std.specs.Prelude.{◌≡◌, [], map, IfOk};
ghost use Rattle.c_tree.specs.Code.{Code};
ghost use Rattle.c_tree.specs.Functions.{fun_of};
ghost use Rattle.c_tree.specs.Pieces.{pieces, piece_of, LaysOut, GivesCode};
ghost use Rattle.c_tree.specs.Steps.{weight, weights};

use crate::building::Building;
use crate::function::CFun;
use crate::laying::Layout;
use crate::pieces::{Piece, PieceRef};
use crate::walk::Walk;
use scheme_data::{List, OutOfMemory};
use std::alloc::Global;

fn weight(piece: &Piece) -> u64
    ensures { result ≡ weight piece.now }
{
    match piece {
        Piece::Else => 0,
        Piece::Ended(_) => 0,
        Piece::Cleanup => 0,
        Piece::End => 0,
        Piece::Assign(_, _) => 1,
        Piece::Call(_) => 1,
        Piece::Return(_) => 1,
        Piece::Goto(_) => 1,
        Piece::If(_) => 1,
        Piece::Loop(_) => 1,
        Piece::Begin => 1,
        Piece::Catch(_, _) => 1,
        Piece::Protect => 1,
    }
}

fn count(ps: &[Piece]) -> u64
    ensures { result ≡ weights ps.now }
{
    let mut count = 0;
    for piece in ps {
        count += weight(piece);
    }
    count
}

/// The statements of these pieces in one list; none where they are the pieces of no statements.
pub fn lay_out(alloc: Global, ps: List<Piece>) -> Result<Option<Layout>, OutOfMemory>
    ensures answer { IfOk result (LaysOut ps) }
    // What has these pieces is what is given, unless memory runs out.
    ensures given { (c : Code) → ps ≡ pieces c [] → GivesCode c result }
{
    let mut building = Building::new(alloc, count(ps.as_slice()));
    let mut rest = ps.into_stack();
    while let Some(piece) = rest.pop() {
        if !building.put(piece)? {
            return Ok(None);
        }
    }
    if !building.is_whole() {
        return Ok(None);
    }
    Ok(Some(building.finish()))
}

/// The pieces of a function's statements.
pub fn pieces_in(alloc: Global, f: &CFun) -> Result<List<PieceRef<'_>>, OutOfMemory>
    ensures { IfOk result (λ ps. map piece_of ps ≡ pieces (fun_of f.now).code []) }
{
    let stmts = f.stmts.as_slice();
    let mut walk = Walk::new(alloc);
    let mut shown = List::new(alloc);
    while let Some(piece) = walk.next(stmts)? {
        shown.push(piece)?;
    }
    Ok(shown)
}
