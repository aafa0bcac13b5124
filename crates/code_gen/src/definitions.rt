// The definitions of a unit: the module's functions, its maker and its initialisation.
ghost use Rattle.std.specs.Prelude.{◌≡◌, [], IfOk, OnOk};
ghost use Rattle.core_tree.specs.Tree.{tree, module_tree};
ghost use Rattle.core_tree.specs.WellFormed.{IsFunction, AreFunctions, AreExpressions};
ghost use Rattle.c_tree.specs.Code.{Code};
ghost use Rattle.c_tree.specs.Layout.{code_of};
ghost use Rattle.c_tree.specs.Pieces.{pieces};
ghost use Rattle.c_tree.specs.Functions.{items_of, fun_of};
ghost use Rattle.plan_rules.specs.Translation.{IsEmpty};
ghost use Rattle.code_gen.specs.Callees.{function_of};
ghost use Rattle.code_gen.specs.Settings.{setting, IsBodyIn};
ghost use Rattle.code_gen.specs.Emission.{IsLooped, IsStraight, ArePieces, IsFunctionOf, IsInitialization, AddsFunctions};

use crate::bodies::{body, forms};
use crate::callees::{Functions, OwnFunction};
use crate::context::{Context, Params};
use crate::emitter::{Emitter, Target};
use c_tree::{
    CAtom, CExpr, CFun, CItem, CTy, Layout, Piece, initializer_name_text, label_name_text, lay_out,
};
use core_tree::Node;
use scheme_data::{List, OutOfMemory, Text};
use std::alloc::Global;

// A function's statements, which are one loop around its body.
fn looped(alloc: Global, ctx: &Context, node: &Node) -> Result<Emitter, OutOfMemory>
    requires { IsBodyIn (setting ctx.now) (tree node.now) }
    ensures { IfOk result (λ e. IsLooped (setting ctx.now) (tree node.now) e) }
{
    let mut e = Emitter::new(alloc, ctx.params.count());
    let label = label_name_text(alloc, 0)?;
    e.put(Piece::Loop(label))?;
    body(ctx, &mut e, node)?;
    e.put(Piece::End)?;
    Ok(e)
}

// The statements of the initialisation, which has no parameters and no loop.
fn straight(alloc: Global, functions: &Functions<'_>) -> Result<Emitter, OutOfMemory>
    requires { AreExpressions (module_tree functions.now) [] (module_tree functions.now).forms }
    ensures { IfOk result (λ e. IsStraight (module_tree functions.now) e) }
{
    let ctx = Context {
        functions,
        params: Params::new(alloc, &[])?,
    };
    let mut e = Emitter::new(alloc, 0);
    forms(&ctx, &mut e, functions.in_module().tops.as_slice())?;
    e.deliver(Target::Back, CExpr::Atom(CAtom::Unspec))?;
    Ok(e)
}

// The statements of pieces that are those of statements.
fn laid(alloc: Global, ps: List<Piece>) -> Result<Layout, OutOfMemory>
    requires { ArePieces ps }
    ensures { (c : Code) → ps ≡ pieces c [] → IfOk result (λ l. code_of l.stmts l.body ≡ c) }
{
    match lay_out(alloc, ps)? {
        Some(layout) => Ok(layout),
        None => unreachable!(),
    }
}

fn definition(
    alloc: Global,
    functions: &Functions<'_>,
    function: &OwnFunction<'_>,
) -> Result<CFun, OutOfMemory>
    requires { IsFunction (module_tree functions.now) (function_of function.now) }
    ensures { IfOk result (λ f. IsFunctionOf (module_tree functions.now) (function_of function.now) (fun_of f)) }
{
    let ctx = Context {
        functions,
        params: Params::new(alloc, function.lambda.params.as_slice())?,
    };
    let Emitter { pieces, locals, .. } = looped(alloc, &ctx, &function.lambda.body)?;
    let Layout { body, stmts, .. } = laid(alloc, pieces)?;
    Ok(CFun {
        result: CTy::Obj,
        name: functions.called(function).c_name(alloc)?,
        params: ctx.params.variables(alloc)?,
        locals,
        body,
        stmts,
    })
}

/// The definitions of the module's functions.
pub fn define_all(
    alloc: Global,
    functions: &Functions<'_>,
    items: &mut List<CItem>,
) -> Result<(), OutOfMemory>
    requires { AreFunctions (module_tree functions.now) (module_tree functions.now).functions }
    ensures { OnOk result (AddsFunctions (module_tree functions.now) (module_tree functions.now).functions (items_of items.old) (items_of items.new)) }
{
    for function in functions.own() {
        let f = definition(alloc, functions, function)?;
        items.push(CItem::Defined(f))?;
    }
    Ok(())
}

/// A function that does nothing. The maker is one, since functions are no values yet.
pub fn empty_function(alloc: Global, name: Text) -> Result<CFun, OutOfMemory>
    ensures { IfOk result (λ f. IsEmpty name (fun_of f)) }
{
    let mut pieces = List::new(alloc);
    pieces.push(Piece::Return(CExpr::Atom(CAtom::Unspec)))?;
    let Layout { body, stmts, .. } = laid(alloc, pieces)?;
    Ok(CFun {
        result: CTy::Obj,
        name,
        params: List::new(alloc),
        locals: List::new(alloc),
        body,
        stmts,
    })
}

/// The initialisation, which evaluates the expressions among the module's top-level forms.
pub fn initialization(alloc: Global, functions: &Functions<'_>) -> Result<CFun, OutOfMemory>
    requires { AreExpressions (module_tree functions.now) [] (module_tree functions.now).forms }
    ensures { IfOk result (λ f. IsInitialization (module_tree functions.now) (fun_of f)) }
{
    let Emitter { pieces, locals, .. } = straight(alloc, functions)?;
    let Layout { body, stmts, .. } = laid(alloc, pieces)?;
    Ok(CFun {
        result: CTy::Obj,
        name: initializer_name_text(alloc, functions.in_module().name.as_bytes())?,
        params: List::new(alloc),
        locals,
        body,
        stmts,
    })
}
