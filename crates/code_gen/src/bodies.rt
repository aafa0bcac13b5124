// Expressions whose values nobody takes, and bodies, which are expressions in order.
ghost use Rattle.std.specs.Prelude.{◌≡◌, ◌<◌, [], ◌∷◌, length, map, OnOk};
ghost use Rattle.core_tree.specs.Tree.{tree, trees, If, Sequence, forms_in};
ghost use Rattle.code_gen.specs.Settings.{setting, IsNode, AreNodes, IsBodyIn};
ghost use Rattle.code_gen.specs.Emission.{IsUnused, AreUnused, IsBodyOf};

use crate::branches::tested;
use crate::calls::{function_call, primitive_call};
use crate::context::Context;
use crate::emitter::{Emitter, Target};
use crate::nodes::delivered;
use c_tree::Piece;
use core_tree::{Node, Top};
use scheme_data::OutOfMemory;

#[cycle(unused_nodes)]
fn unused(ctx: &Context, e: &mut Emitter, node: &Node) -> Result<(), OutOfMemory>
    requires { IsNode (setting ctx.now) (tree node.now) }
    ensures { OnOk result (IsUnused (setting ctx.now) e.old e.new (tree node.now)) }
{
    match node {
        Node::Constant(_) => Ok(()),
        Node::Variable(_) => Ok(()),
        Node::If(test, first, second) => {
            unused_branches(ctx, e, test.get(), first.get(), second.get())
        }
        Node::Call(g, nodes) => match function_call(ctx, e, *g, nodes.as_slice())? {
            Some(call) => e.put(Piece::Call(call)),
            None => Ok(()),
        },
        Node::Primitive(p, nodes) => {
            let call = primitive_call(ctx, e, *p, nodes.as_slice())?;
            e.put(Piece::Call(call))
        }
        Node::Sequence(_) => unreachable!(),
    }
}

#[cycle(unused_nodes)]
fn unused_branches(
    ctx: &Context,
    e: &mut Emitter,
    test: &Node,
    first: &Node,
    second: &Node,
) -> Result<(), OutOfMemory>
    requires { IsNode (setting ctx.now) (If (tree test.now) (tree first.now) (tree second.now)) }
    ensures { OnOk result (IsUnused (setting ctx.now) e.old e.new (If (tree test.now) (tree first.now) (tree second.now))) }
{
    let chosen = tested(ctx, e, test)?;
    e.put(Piece::If(chosen))?;
    unused(ctx, e, first)?;
    e.put(Piece::Else)?;
    unused(ctx, e, second)?;
    e.put(Piece::End)
}

// The statements of a form, if it is an expression.
fn form(ctx: &Context, e: &mut Emitter, top: &Top) -> Result<(), OutOfMemory>
    requires { AreNodes (setting ctx.now) (forms_in (top.now ∷ [])) }
    ensures { OnOk result (AreUnused (setting ctx.now) e.old e.new (forms_in (top.now ∷ []))) }
{
    match top {
        Top::Function(_, _) => Ok(()),
        Top::Form(node) => unused(ctx, e, node),
    }
}

/// The statements of the expressions among top-level forms.
pub fn forms(ctx: &Context, e: &mut Emitter, tops: &[Top]) -> Result<(), OutOfMemory>
    requires { AreNodes (setting ctx.now) (forms_in tops.now) }
    ensures { OnOk result (AreUnused (setting ctx.now) e.old e.new (forms_in tops.now)) }
{
    for i in 0..tops.len() {
        form(ctx, e, &tops[i])?;
    }
    Ok(())
}

// The nodes in order, of which the last gives the function's value.
fn sequence(ctx: &Context, e: &mut Emitter, nodes: &[Node]) -> Result<(), OutOfMemory>
    requires some { 0 < length nodes.now }
    requires expressions { AreNodes (setting ctx.now) (trees (map tree nodes.now)) }
    ensures { OnOk result (IsBodyOf (setting ctx.now) e.old e.new (Sequence (trees (map tree nodes.now)))) }
{
    let last = nodes.len() - 1;
    for i in 0..last {
        unused(ctx, e, &nodes[i])?;
    }
    delivered(ctx, e, &nodes[last], Target::Back)
}

/// The statements of a function's body.
pub fn body(ctx: &Context, e: &mut Emitter, node: &Node) -> Result<(), OutOfMemory>
    requires { IsBodyIn (setting ctx.now) (tree node.now) }
    ensures { OnOk result (IsBodyOf (setting ctx.now) e.old e.new (tree node.now)) }
{
    match node {
        Node::Sequence(nodes) => sequence(ctx, e, nodes.as_slice()),
        Node::Constant(_) => unreachable!(),
        Node::Variable(_) => unreachable!(),
        Node::If(_, _, _) => unreachable!(),
        Node::Call(_, _) => unreachable!(),
        Node::Primitive(_, _) => unreachable!(),
    }
}
