// An `if`: its test, and by it one of two blocks.
ghost use Rattle.std.specs.Prelude.{◌≡◌, IfOk, OnOk};
ghost use Rattle.core_tree.specs.Tree.{tree, If};
ghost use Rattle.code_gen.specs.Settings.{setting, IsNode};
ghost use Rattle.code_gen.specs.Emission.{IsTested, IsDelivered};

use crate::context::Context;
use crate::emitter::{Emitter, Target};
use crate::nodes::{delivered, value};
use crate::parts::condition;
use c_tree::{CExpr, Piece};
use core_tree::Node;
use plan_rules::Rep;
use scheme_data::OutOfMemory;

/// The condition by which a test chooses, whose value is in a new local.
#[cycle(values)]
pub fn tested(ctx: &Context, e: &mut Emitter, test: &Node) -> Result<CExpr, OutOfMemory>
    requires { IsNode (setting ctx.now) (tree test.now) }
    ensures { IfOk result (λ c. IsTested (setting ctx.now) e.old e.new (tree test.now) c) }
{
    let held = value(ctx, e, test, Rep::Bool)?;
    condition(e.alloc, held)
}

/// Both blocks give their values as words to one target.
#[cycle(values)]
pub fn branches(
    ctx: &Context,
    e: &mut Emitter,
    test: &Node,
    first: &Node,
    second: &Node,
    target: Target,
) -> Result<(), OutOfMemory>
    requires { IsNode (setting ctx.now) (If (tree test.now) (tree first.now) (tree second.now)) }
    ensures { OnOk result (IsDelivered (setting ctx.now) e.old e.new (If (tree test.now) (tree first.now) (tree second.now)) target) }
{
    let chosen = tested(ctx, e, test)?;
    e.put(Piece::If(chosen))?;
    delivered(ctx, e, first, target)?;
    e.put(Piece::Else)?;
    delivered(ctx, e, second, target)?;
    e.put(Piece::End)
}
