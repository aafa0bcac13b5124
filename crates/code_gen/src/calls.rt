// Calls, whose arguments are evaluated from left to right and then made to fit.
ghost use Rattle.std.specs.Prelude.{◌≡◌, map, IfOk};
ghost use Rattle.built_table.specs.Table.{params_of};
ghost use Rattle.core_tree.specs.Tree.{tree, trees, callee_of};
ghost use Rattle.core_tree.specs.WellFormed.{AsMany, IsFound};
ghost use Rattle.code_gen.specs.Settings.{setting, AreNodes};
ghost use Rattle.code_gen.specs.Emission.{types_of, AreParameters, AreArguments, IsReady, IsPrimitiveCall, IsFunctionCall};

use crate::coercions::fitted;
use crate::context::Context;
use crate::emitter::{Emitter, Held};
use crate::nodes::value;
use crate::parts::{local_args, raise_count, rep};
use crate::wanted::Wanted;
use built_table::Primitive;
use c_tree::{CArg, CCall, Callee, Op, Piece};
use core_tree::{GlobalRef, Node};
use scheme_data::{List, OutOfMemory};

/// The call of a primitive.
#[cycle(values)]
pub fn primitive_call(
    ctx: &Context,
    e: &mut Emitter,
    p: Primitive,
    nodes: &[Node],
) -> Result<CCall, OutOfMemory>
    requires as_many { AsMany (params_of p) (trees (map tree nodes.now)) }
    requires expressions { AreNodes (setting ctx.now) (trees (map tree nodes.now)) }
    ensures { IfOk result (λ call. IsPrimitiveCall (setting ctx.now) e.old e.new p (trees (map tree nodes.now)) call) }
{
    let args = ready(ctx, e, Wanted::Of(p), nodes)?;
    Ok(CCall {
        callee: Callee::Op(Op::Primitive(p.in_table())),
        args,
    })
}

/// The call of a function; none where the number of arguments is wrong, and an error is raised in its place.
#[cycle(values)]
pub fn function_call(
    ctx: &Context,
    e: &mut Emitter,
    g: GlobalRef,
    nodes: &[Node],
) -> Result<Option<CCall>, OutOfMemory>
    requires found { IsFound (callee_of (setting ctx.now).in_module g) }
    requires expressions { AreNodes (setting ctx.now) (trees (map tree nodes.now)) }
    ensures { IfOk result (λ call. IsFunctionCall (setting ctx.now) e.old e.new g (trees (map tree nodes.now)) call) }
{
    let called = ctx.functions.callee(g);
    let wanted = Wanted::Words(nodes.len());
    if nodes.len() != called.params {
        arguments(ctx, e, wanted, nodes)?;
        let raise = raise_count(e.alloc, called.params)?;
        e.put(Piece::Call(raise))?;
        return Ok(None);
    }
    let args = ready(ctx, e, wanted, nodes)?;
    let name = called.c_name(e.alloc)?;
    Ok(Some(CCall {
        callee: Callee::Fun(name),
        args,
    }))
}

// The arguments of a call.
#[cycle(values)]
fn ready(
    ctx: &Context,
    e: &mut Emitter,
    wanted: Wanted,
    nodes: &[Node],
) -> Result<List<CArg>, OutOfMemory>
    requires parameters { AreParameters (types_of wanted) }
    requires as_many { AsMany (types_of wanted) (trees (map tree nodes.now)) }
    requires expressions { AreNodes (setting ctx.now) (trees (map tree nodes.now)) }
    ensures { IfOk result (λ args. IsReady (setting ctx.now) e.old e.new (types_of wanted) (trees (map tree nodes.now)) args) }
{
    let held = arguments(ctx, e, wanted, nodes)?;
    let made = fitted(e, wanted, held.as_slice())?;
    local_args(e.alloc, made.as_slice())
}

#[cycle(values)]
fn arguments(
    ctx: &Context,
    e: &mut Emitter,
    wanted: Wanted,
    nodes: &[Node],
) -> Result<List<Held>, OutOfMemory>
    requires as_many { AsMany (types_of wanted) (trees (map tree nodes.now)) }
    requires expressions { AreNodes (setting ctx.now) (trees (map tree nodes.now)) }
    ensures { IfOk result (λ held. AreArguments (setting ctx.now) e.old e.new (types_of wanted) (trees (map tree nodes.now)) held) }
{
    let mut held = List::new(e.alloc);
    for i in 0..nodes.len() {
        let one = value(ctx, e, &nodes[i], rep(wanted.at(i)))?;
        held.push(one)?;
    }
    Ok(held)
}
