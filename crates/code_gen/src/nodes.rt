// The statements of expressions, whose values go to new locals or to places that were chosen before.
ghost use Rattle.std.specs.Prelude.{◌≡◌, IfOk, OnOk};
ghost use Rattle.core_tree.specs.Tree.{tree};
ghost use Rattle.code_gen.specs.Settings.{setting, IsNode};
ghost use Rattle.code_gen.specs.Emission.{IsValue, IsDelivered, GivesWord};

use crate::branches::branches;
use crate::calls::{function_call, primitive_call};
use crate::coercions::{Coercion, coercion_to};
use crate::context::Context;
use crate::emitter::{Emitter, Held, Target};
use crate::parts::{constant, constant_rep, local_expr, made_from, rep, word};
use built_table::Ty;
use c_tree::{CCall, CExpr};
use core_tree::Node;
use plan_rules::Rep;
use scheme_data::OutOfMemory;

/// The node's value in a new local. That of an `if` is there before its blocks.
#[cycle(values)]
pub fn value(ctx: &Context, e: &mut Emitter, node: &Node, wanted: Rep) -> Result<Held, OutOfMemory>
    requires { IsNode (setting ctx.now) (tree node.now) }
    ensures { IfOk result (λ held. IsValue (setting ctx.now) e.old e.new (tree node.now) wanted held) }
{
    match node {
        Node::Constant(c) => {
            let value = constant(e.alloc, *c, wanted)?;
            e.store(constant_rep(*c, wanted), value)
        }
        Node::Variable(x) => {
            let word = local_expr(e.alloc, ctx.params.local_of(*x))?;
            e.store(Rep::Obj, word)
        }
        Node::If(_, _, _) => {
            let held = e.unset(Rep::Obj)?;
            delivered(ctx, e, node, Target::Into(held.local))?;
            Ok(held)
        }
        Node::Call(g, nodes) => match function_call(ctx, e, *g, nodes.as_slice())? {
            Some(call) => e.store(Rep::Obj, CExpr::Call(call)),
            None => e.unset(Rep::Obj),
        },
        Node::Primitive(p, nodes) => {
            let call = primitive_call(ctx, e, *p, nodes.as_slice())?;
            e.store(rep(p.result()), CExpr::Call(call))
        }
        Node::Sequence(_) => unreachable!(),
    }
}

/// The node's value goes to a target, as a word.
#[cycle(values)]
pub fn delivered(
    ctx: &Context,
    e: &mut Emitter,
    node: &Node,
    target: Target,
) -> Result<(), OutOfMemory>
    requires { IsNode (setting ctx.now) (tree node.now) }
    ensures { OnOk result (IsDelivered (setting ctx.now) e.old e.new (tree node.now) target) }
{
    match node {
        Node::Constant(c) => {
            let value = word(e.alloc, *c)?;
            e.deliver(target, value)
        }
        Node::Variable(x) => {
            let value = local_expr(e.alloc, ctx.params.local_of(*x))?;
            e.deliver(target, value)
        }
        Node::If(test, first, second) => {
            branches(ctx, e, test.get(), first.get(), second.get(), target)
        }
        Node::Call(g, nodes) => match function_call(ctx, e, *g, nodes.as_slice())? {
            Some(call) => e.deliver(target, CExpr::Call(call)),
            None => Ok(()),
        },
        Node::Primitive(p, nodes) => {
            let call = primitive_call(ctx, e, *p, nodes.as_slice())?;
            as_word(e, rep(p.result()), call, target)
        }
        Node::Sequence(_) => unreachable!(),
    }
}

// What a call gives, as a word.
fn as_word(e: &mut Emitter, has: Rep, call: CCall, target: Target) -> Result<(), OutOfMemory>
    ensures { OnOk result (GivesWord e.old e.new has call target) }
{
    match coercion_to(Ty::Obj, has) {
        Coercion::Keep => e.deliver(target, CExpr::Call(call)),
        Coercion::Make(op) => {
            let held = e.store(has, CExpr::Call(call))?;
            let word = made_from(e.alloc, op, held.local)?;
            e.deliver(target, word)
        }
        Coercion::Refuse => unreachable!(),
    }
}
