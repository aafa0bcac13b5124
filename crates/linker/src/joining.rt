// The program of units: their items, and then `main`.
ghost use Rattle.std.specs.Prelude.{◌≡◌, ℕ, List, [], ◌∷◌, ◌++◌, map, IfOk, OnOk, IsTrue};
ghost use Rattle.std.specs.List.{flat_map};
ghost use Rattle.c_tree.specs.Functions.{items_of, item_of};
ghost use Rattle.c_tree.specs.Layout.{code_of};
ghost use Rattle.c_tree.specs.Names.{maker_name, initializer_name, is_function_name};
ghost use Rattle.c_tree.specs.Pieces.{pieces};
ghost use Rattle.c_tree.specs.Spelling.{NamedItems};
ghost use Rattle.c_tree.specs.Code.{done};
ghost use Rattle.c_tree.specs.declared.tree.CTy.TheVariants.{Obj as ObjTy};
ghost use Rattle.object_text.specs.Parts.{AllAre};
ghost use Rattle.plan_rules.specs.Representation.{local};
ghost use Rattle.plan_rules.specs.Joined.{first_local, second_local, calls_alone, call_main, main_code, main_function, joined_with};
ghost use Rattle.linker.specs.Modules.{unit_part, unit_names, NamedPart};

use c_tree::{
    CArg, CAtom, CCall, CExpr, CFun, CItem, CProgram, CTy, CVar, Callee, Layout, Op, Piece,
    initializer_name_text, lay_out, maker_name_text,
};
use scheme_data::{List, OutOfMemory, Stack, Text};
use std::alloc::Global;

const FIRST: &[u8] = b"x0";

const SECOND: &[u8] = b"x1";

/// The items of a unit, with the name of its module.
#[derive(Drop)]
pub struct NamedUnit {
    pub module_name: Text,
    pub items: List<CItem>,
}

/// The program of these units in their order, with this main function.
pub fn joined_program(
    alloc: Global,
    units: List<NamedUnit>,
    function: Text,
) -> Result<CProgram, OutOfMemory>
    requires named { AllAre NamedPart (map unit_part units) }
    requires function_named { IsTrue (is_function_name function) }
    ensures is { IfOk result (λ p. items_of p.items ≡ joined_with (map unit_part units) function) }
    ensures named { IfOk result (λ p. NamedItems (items_of p.items)) }
{
    let main = item_main(alloc, units.as_slice(), function)?;
    let mut items = Stack::new(alloc);
    items.push(main)?;
    push_units(&mut items, units)?;
    Ok(CProgram {
        items: items.into_list(),
    })
}

/// Puts the items of units in front of others.
fn push_units(items: &mut Stack<CItem>, units: List<NamedUnit>) -> Result<(), OutOfMemory>
    ensures { OnOk result (items.new ≡ flat_map (λ u. u.items) units ++ items.old) }
{
    let mut units = units.into_stack();
    while let Some(unit) = units.pop() {
        push_items(items, unit.items)?;
    }
    Ok(())
}

/// Puts the items of a unit in front of others.
fn push_items(items: &mut Stack<CItem>, unit: List<CItem>) -> Result<(), OutOfMemory>
    ensures { OnOk result (items.new ≡ unit ++ items.old) }
{
    let mut unit = unit.into_stack();
    while let Some(item) = unit.pop() {
        items.push(item)?;
    }
    Ok(())
}

/// The item `main`.
fn item_main(alloc: Global, units: &[NamedUnit], function: Text) -> Result<CItem, OutOfMemory>
    ensures { IfOk result (λ i. item_of i ≡ main_function (unit_names units.now) function) }
{
    let Layout { body, stmts } = main_layout(alloc, units, function)?;
    Ok(CItem::Defined(CFun {
        result: CTy::Int,
        name: Text::from_bytes(alloc, b"main")?,
        params: List::new(alloc),
        locals: main_locals(alloc)?,
        body,
        stmts,
    }))
}

fn main_layout(alloc: Global, units: &[NamedUnit], function: Text) -> Result<Layout, OutOfMemory>
    ensures { IfOk result (λ l. code_of l.stmts l.body ≡ main_code (unit_names units.now) function) }
{
    match lay_out(alloc, main_pieces(alloc, units, function)?)? {
        Some(layout) => Ok(layout),
        None => unreachable!(),
    }
}

fn main_locals(alloc: Global) -> Result<List<CVar>, OutOfMemory>
    ensures { IfOk result (λ vs. vs ≡ record { ty = ObjTy; name = first_local } ∷ record { ty = ObjTy; name = second_local } ∷ []) }
{
    let mut locals = List::new(alloc);
    locals.push(object_local(alloc, FIRST)?)?;
    locals.push(object_local(alloc, SECOND)?)?;
    Ok(locals)
}

fn object_local(alloc: Global, name: &[u8]) -> Result<CVar, OutOfMemory>
    ensures { IfOk result (λ v. v ≡ record { ty = ObjTy; name = name.now }) }
{
    Ok(CVar {
        ty: CTy::Obj,
        name: Text::from_bytes(alloc, name)?,
    })
}

/// All makers and all initialisations are called, the arguments are fetched, the function is called with them, and its value's status is returned.
fn main_pieces(
    alloc: Global,
    units: &[NamedUnit],
    function: Text,
) -> Result<List<Piece>, OutOfMemory>
    ensures { IfOk result (λ ps. ps ≡ pieces (main_code (unit_names units.now) function) []) }
{
    let mut pieces = List::new(alloc);
    push_makers(alloc, &mut pieces, units)?;
    push_initializers(alloc, &mut pieces, units)?;
    push_run(alloc, &mut pieces, function)?;
    Ok(pieces)
}

/// Adds the calls of the makers.
fn push_makers(
    alloc: Global,
    body: &mut List<Piece>,
    units: &[NamedUnit],
) -> Result<(), OutOfMemory>
    ensures { OnOk result (body.new ≡ body.old ++ pieces (calls_alone (map maker_name (unit_names units.now)) done) []) }
{
    for unit in units {
        let maker = maker_name_text(alloc, unit.module_name.as_bytes())?;
        body.push(Piece::Call(call_alone(alloc, Callee::Fun(maker))))?;
    }
    Ok(())
}

/// Adds the calls of the initialisations.
fn push_initializers(
    alloc: Global,
    body: &mut List<Piece>,
    units: &[NamedUnit],
) -> Result<(), OutOfMemory>
    ensures { OnOk result (body.new ≡ body.old ++ pieces (calls_alone (map initializer_name (unit_names units.now)) done) []) }
{
    for unit in units {
        let initializer = initializer_name_text(alloc, unit.module_name.as_bytes())?;
        body.push(Piece::Call(call_alone(alloc, Callee::Fun(initializer))))?;
    }
    Ok(())
}

/// Adds the call of the main function on the arguments, and the return of its value's status.
fn push_run(alloc: Global, body: &mut List<Piece>, function: Text) -> Result<(), OutOfMemory>
    ensures { OnOk result (body.new ≡ body.old ++ pieces (call_main function) []) }
{
    body.push(assignment(alloc, FIRST, call_alone(alloc, Callee::Op(Op::Args)))?)?;
    let run = call_with(alloc, Callee::Fun(function), FIRST)?;
    body.push(assignment(alloc, SECOND, run)?)?;
    let status = call_with(alloc, Callee::Op(Op::Status), SECOND)?;
    body.push(Piece::Return(CExpr::Call(status)))?;
    Ok(())
}

/// A call without arguments.
fn call_alone(alloc: Global, callee: Callee) -> CCall
    ensures { result ≡ record { callee = callee; args = [] } }
{
    CCall {
        callee,
        args: List::new(alloc),
    }
}

fn assignment(alloc: Global, name: &[u8], call: CCall) -> Result<Piece, OutOfMemory>
    ensures { IfOk result (λ p. p ≡ Piece.Assign name.now (CExpr.Call call)) }
{
    Ok(Piece::Assign(Text::from_bytes(alloc, name)?, CExpr::Call(call)))
}

/// A call with one local.
fn call_with(alloc: Global, callee: Callee, name: &[u8]) -> Result<CCall, OutOfMemory>
    ensures { IfOk result (λ c. c ≡ record { callee = callee; args = local name.now ∷ [] }) }
{
    let mut args = List::new(alloc);
    args.push(CArg::Atom(CAtom::Name(Text::from_bytes(alloc, name)?)))?;
    Ok(CCall { callee, args })
}
