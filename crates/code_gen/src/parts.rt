// What a representation, a primitive and a value are in C.
ghost use Rattle.std.specs.Prelude.{◌≡◌, ◌∷◌, [], ◌++◌, pos, IfOk, map, Some};
ghost use Rattle.c_tree.specs.Names.{local_name};
ghost use Rattle.plan_rules.specs.declared.rep.Rep.TheVariants.{Obj as Word};
ghost use Rattle.plan_rules.specs.Representation.{truth_atom, rep_of, c_type_of, own_rep, constant_rep, constant_expr, condition, operation, raise, raise_count, raise_type, local};

use crate::emitter::Held;
use built_table::Ty;
use c_tree::{CArg, CAtom, CCall, CExpr, CTy, Callee, Op, local_name_text};
use core_tree::Const;
use plan_rules::Rep;
use prim_table::ErrCode;
use scheme_data::{List, OutOfMemory, Text, push_number};
use std::alloc::Global;

pub fn rep(ty: Ty) -> Rep
    ensures { result ≡ rep_of ty }
{
    match ty {
        Ty::Obj => Rep::Obj,
        Ty::Long => Rep::Long,
        Ty::Bool => Rep::Bool,
    }
}

pub fn c_type(rep: Rep) -> CTy
    ensures { result ≡ c_type_of rep }
{
    match rep {
        Rep::Obj => CTy::Obj,
        Rep::Long => CTy::Long,
        Rep::Bool => CTy::Int,
    }
}

/// The value of a local.
pub fn local_expr(alloc: Global, x: u32) -> Result<CExpr, OutOfMemory>
    ensures { IfOk result (λ e. e ≡ CExpr.Atom (CAtom.Name (local_name x))) }
{
    Ok(CExpr::Atom(CAtom::Name(local_name_text(alloc, x)?)))
}

// The call that raises an error with a text.
fn raise(alloc: Global, error: ErrCode, text: Text) -> Result<CCall, OutOfMemory>
    ensures { IfOk result (λ c. c ≡ raise error text) }
{
    let mut args = List::new(alloc);
    args.push(CArg::Atom(CAtom::Int(error.number() as i64)))?;
    args.push(CArg::Str(text))?;
    Ok(CCall {
        callee: Callee::Op(Op::Raise),
        args,
    })
}

/// The call that raises the error of a number of arguments, where so many are wanted. A number past `i64` counts as want of memory.
pub fn raise_count(alloc: Global, want: usize) -> Result<CCall, OutOfMemory>
    ensures { IfOk result (λ c. c ≡ raise_count want) }
{
    let number = i64::try_from(want).map_err(|_| OutOfMemory)?;
    let mut text = Text::new(alloc);
    push_number(&mut text, number)?;
    raise(alloc, ErrCode::ArgumentCount, text)
}

/// The call that raises the error of a wrong type, where this one is wanted.
pub fn raise_type(alloc: Global, ty: Ty) -> Result<CCall, OutOfMemory>
    ensures { IfOk result (λ c. c ≡ raise_type ty) }
{
    let text = Text::from_bytes(alloc, ty.name())?;
    raise(alloc, ErrCode::WrongType, text)
}

pub fn local_arg(alloc: Global, x: u32) -> Result<CArg, OutOfMemory>
    ensures { IfOk result (λ a. a ≡ local (local_name x)) }
{
    Ok(CArg::Atom(CAtom::Name(local_name_text(alloc, x)?)))
}

pub fn local_args(alloc: Global, xs: &[u32]) -> Result<List<CArg>, OutOfMemory>
    ensures { IfOk result (λ args. args ≡ map local (map local_name xs.now)) }
{
    let mut args = List::new(alloc);
    for x in xs {
        args.push(local_arg(alloc, *x)?)?;
    }
    Ok(args)
}

fn call_on(alloc: Global, op: Op, arg: CArg) -> Result<CExpr, OutOfMemory>
    ensures { IfOk result (λ e. e ≡ CExpr.Call (operation op (arg ∷ []))) }
{
    let mut args = List::new(alloc);
    args.push(arg)?;
    Ok(CExpr::Call(CCall {
        callee: Callee::Op(op),
        args,
    }))
}

/// An operation on a local.
pub fn made_from(alloc: Global, op: Op, x: u32) -> Result<CExpr, OutOfMemory>
    ensures { IfOk result (λ e. e ≡ CExpr.Call (operation op (local (local_name x) ∷ []))) }
{
    let arg = local_arg(alloc, x)?;
    call_on(alloc, op, arg)
}

/// A constant as a word.
pub fn word(alloc: Global, c: Const) -> Result<CExpr, OutOfMemory>
    ensures { IfOk result (λ e. constant_expr c Word ≡ Some e) }
{
    match c {
        Const::Int(n) => call_on(alloc, Op::BoxLong, CArg::Atom(CAtom::Int(n))),
        Const::Bool(b) => Ok(CExpr::Atom(truth(b))),
    }
}

fn truth(b: bool) -> CAtom
    ensures { result ≡ truth_atom b }
{
    if b { CAtom::True } else { CAtom::False }
}

// A constant as what it is.
fn itself(c: Const) -> CExpr
    ensures { constant_expr c (own_rep c) ≡ Some result }
{
    match c {
        Const::Int(n) => CExpr::Atom(CAtom::Int(n)),
        Const::Bool(b) => CExpr::Atom(CAtom::Int(if b { 1 } else { 0 })),
    }
}

/// How a constant comes, where a representation is wanted.
pub fn constant_rep(c: Const, wanted: Rep) -> Rep
    ensures { result ≡ constant_rep c wanted }
{
    match (wanted, c) {
        (Rep::Obj, _) => Rep::Obj,
        (_, Const::Int(_)) => Rep::Long,
        (_, Const::Bool(_)) => Rep::Bool,
    }
}

/// A constant as it comes, where a representation is wanted.
pub fn constant(alloc: Global, c: Const, wanted: Rep) -> Result<CExpr, OutOfMemory>
    ensures { IfOk result (λ e. constant_expr c (constant_rep c wanted) ≡ Some e) }
{
    match wanted {
        Rep::Obj => word(alloc, c),
        Rep::Long | Rep::Bool => Ok(itself(c)),
    }
}

/// The condition by which a test's value chooses.
pub fn condition(alloc: Global, test: Held) -> Result<CExpr, OutOfMemory>
    ensures { IfOk result (λ e. e ≡ condition test.rep (local_name test.local)) }
{
    match test.rep {
        Rep::Obj => made_from(alloc, Op::Truth, test.local),
        Rep::Long => Ok(CExpr::Atom(CAtom::Int(1))),
        Rep::Bool => local_expr(alloc, test.local),
    }
}
