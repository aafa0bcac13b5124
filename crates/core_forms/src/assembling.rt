// CoreExpr forms from their expanded parts.
ghost use Rattle.std.specs.Prelude.{◌≡◌, [], ◌∷◌, map};
ghost use Rattle.core_forms.specs.Mid.{Head, function, branch, sequence, binding, recursive, exit, protected, call, assigned, made, trees_then, leaf, tree};
ghost use Rattle.core_forms.specs.Code.{OkOrMemory, LastOf, FirstOf};
ghost use Rattle.core_forms.specs.Working.{kind_head};

use crate::core_form::{Binder, CoreExpr};
use crate::error::ExpandErr;
use crate::work::Kind;
use scheme_data::{Place, Text};
use sqlite_items::{Boxed, Items};
use std::alloc::Global;

/// The last of these, which is taken off.
fn last(alloc: Global, cs: &mut Items<CoreExpr>) -> Result<Boxed<CoreExpr>, ExpandErr>
    ensures { LastOf cs.old result cs.new }
{
    match cs.pop() {
        Some(c) => Ok(Boxed::new(alloc, c)?),
        None => Err(ExpandErr::Memory),
    }
}

/// The one that there is.
fn only(alloc: Global, cs: Items<CoreExpr>) -> Result<Boxed<CoreExpr>, ExpandErr>
    ensures { OkOrMemory result (λ c. cs ≡ c ∷ []) }
{
    let mut cs = cs;
    let c = last(alloc, &mut cs)?;
    if cs.is_empty() {
        Ok(c)
    } else {
        Err(ExpandErr::Memory)
    }
}

fn lambda(
    alloc: Global,
    at: Place,
    xs: Items<Binder>,
    cs: Items<CoreExpr>,
) -> Result<CoreExpr, ExpandErr>
    ensures { OkOrMemory result (λ c. tree c ≡ made at (function xs) (trees_then (map tree cs) leaf)) }
{
    let b = only(alloc, cs)?;
    Ok(CoreExpr::Lambda(at, xs, b))
}

fn branches(alloc: Global, at: Place, cs: Items<CoreExpr>) -> Result<CoreExpr, ExpandErr>
    ensures { OkOrMemory result (λ c. tree c ≡ made at branch (trees_then (map tree cs) leaf)) }
{
    let mut cs = cs;
    let c = last(alloc, &mut cs)?;
    let b = last(alloc, &mut cs)?;
    if cs.is_empty() {
        return Ok(CoreExpr::OneArmed(at, b, c));
    }
    let a = only(alloc, cs)?;
    Ok(CoreExpr::If(at, a, b, c))
}

fn assignment(
    alloc: Global,
    at: Place,
    x: Text,
    m: u32,
    cs: Items<CoreExpr>,
) -> Result<CoreExpr, ExpandErr>
    ensures { OkOrMemory result (λ c. tree c ≡ made at (assigned x m) (trees_then (map tree cs) leaf)) }
{
    let e = only(alloc, cs)?;
    Ok(CoreExpr::Set(at, x, m, e))
}

fn bindings(
    alloc: Global,
    at: Place,
    xs: Items<Binder>,
    cs: Items<CoreExpr>,
) -> Result<CoreExpr, ExpandErr>
    ensures { OkOrMemory result (λ c. tree c ≡ made at (binding xs) (trees_then (map tree cs) leaf)) }
{
    let mut cs = cs;
    let b = last(alloc, &mut cs)?;
    Ok(CoreExpr::Let(at, xs, cs, b))
}

fn recursion(
    alloc: Global,
    at: Place,
    xs: Items<Binder>,
    cs: Items<CoreExpr>,
) -> Result<CoreExpr, ExpandErr>
    ensures { OkOrMemory result (λ c. tree c ≡ made at (recursive xs) (trees_then (map tree cs) leaf)) }
{
    let mut cs = cs;
    let b = last(alloc, &mut cs)?;
    Ok(CoreExpr::Letrec(at, xs, cs, b))
}

fn exits(alloc: Global, at: Place, x: Binder, cs: Items<CoreExpr>) -> Result<CoreExpr, ExpandErr>
    ensures { OkOrMemory result (λ c. tree c ≡ made at (exit x) (trees_then (map tree cs) leaf)) }
{
    let b = only(alloc, cs)?;
    Ok(CoreExpr::BindExit(at, x, b))
}

/// The first of these, which is taken off.
fn first(alloc: Global, cs: &mut Items<CoreExpr>) -> Result<Boxed<CoreExpr>, ExpandErr>
    ensures { FirstOf cs.old result cs.new }
{
    if cs.is_empty() {
        return Err(ExpandErr::Memory);
    }
    Ok(Boxed::new(alloc, cs.remove(0))?)
}

fn protection(alloc: Global, at: Place, cs: Items<CoreExpr>) -> Result<CoreExpr, ExpandErr>
    ensures { OkOrMemory result (λ c. tree c ≡ made at protected (trees_then (map tree cs) leaf)) }
{
    let mut cs = cs;
    let e = first(alloc, &mut cs)?;
    Ok(CoreExpr::UnwindProtect(at, e, cs))
}

fn application(alloc: Global, at: Place, cs: Items<CoreExpr>) -> Result<CoreExpr, ExpandErr>
    ensures { OkOrMemory result (λ c. tree c ≡ made at call (trees_then (map tree cs) leaf)) }
{
    let mut cs = cs;
    let e = first(alloc, &mut cs)?;
    Ok(CoreExpr::Call(at, e, cs))
}

/// The core form of this kind with these parts.
pub fn assemble(
    alloc: Global,
    at: Place,
    kind: Kind,
    cs: Items<CoreExpr>,
) -> Result<CoreExpr, ExpandErr>
    ensures { OkOrMemory result (λ c. tree c ≡ made at (kind_head kind) (trees_then (map tree cs) leaf)) }
{
    match kind {
        Kind::Lambda(xs) => lambda(alloc, at, xs, cs),
        Kind::If => branches(alloc, at, cs),
        Kind::Set(x, m) => assignment(alloc, at, x, m, cs),
        Kind::Begin => Ok(CoreExpr::Begin(at, cs)),
        Kind::Let(xs) => bindings(alloc, at, xs, cs),
        Kind::Letrec(xs) => recursion(alloc, at, xs, cs),
        Kind::BindExit(x) => exits(alloc, at, x, cs),
        Kind::UnwindProtect => protection(alloc, at, cs),
        Kind::Call => application(alloc, at, cs),
    }
}
