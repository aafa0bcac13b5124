// The forms that programs may have so far.
ghost use Rattle.std.specs.Prelude.{◌≡◌};
ghost use Rattle.std.specs.List.{list_all};
ghost use Rattle.c_tree.specs.Functions.{fun_of, items_of};
ghost use Rattle.c_meaning.specs.Plain.{is_built_op};
ghost use Rattle.c_meaning.specs.Runnable.{is_runnable_atom, is_runnable_argument, is_runnable_callee, is_runnable_call, is_runnable_expr, is_runnable_code, is_local, is_runnable_function, is_runnable};
ghost use Rattle.c_machine.specs.Forms.{is_straight_statement, are_runnable, item_runs};

use built_table::Primitive;
use c_tree::{
    CArg, CAtom, CCall, CExpr, CFun, CItem, CStmt, CVar, Callee, Op, begins_as_entry, names_local,
};

fn atom_runs(a: &CAtom) -> bool
    ensures { result ≡ is_runnable_atom a.now }
{
    !matches!(a, CAtom::Sym(_))
}

fn argument_runs(a: &CArg) -> bool
    ensures { result ≡ is_runnable_argument a.now }
{
    match a {
        CArg::Atom(a) => atom_runs(a),
        CArg::Str(_) => true,
        CArg::Entry(_) => false,
    }
}

fn is_built(op: Op) -> bool
    ensures { result ≡ is_built_op op }
{
    match op {
        Op::BoxLong | Op::BoxBool | Op::UnboxLong | Op::Truth | Op::Raise | Op::Args | Op::Status =>
            true,
        Op::Primitive(p) => Primitive::of_table(p).is_some(),
        _ => false,
    }
}

fn callee_runs(callee: &Callee) -> bool
    ensures { result ≡ is_runnable_callee callee.now }
{
    match callee {
        Callee::Fun(_) => true,
        Callee::Op(op) => is_built(*op),
    }
}

fn arguments_run(args: &[CArg]) -> bool
    ensures { result ≡ list_all is_runnable_argument args.now }
{
    args.iter().all(|a| argument_runs(a))
}

fn call_runs(c: &CCall) -> bool
    ensures { result ≡ is_runnable_call c.now }
{
    callee_runs(&c.callee) && arguments_run(c.args.as_slice())
}

fn expression_runs(e: &CExpr) -> bool
    ensures { result ≡ is_runnable_expr e.now }
{
    match e {
        CExpr::Atom(a) => atom_runs(a),
        CExpr::Call(c) => call_runs(c),
    }
}

fn is_straight_statement(s: &CStmt) -> bool
    ensures { result ≡ is_straight_statement s.now }
{
    match s {
        CStmt::Assign(_, e) => expression_runs(e),
        CStmt::Call(c) => call_runs(c),
        CStmt::Return(e) => expression_runs(e),
        CStmt::If(e, _, _) => expression_runs(e),
        _ => false,
    }
}

fn are_straight(stmts: &[CStmt]) -> bool
    ensures { result ≡ list_all is_straight_statement stmts.now }
{
    stmts.iter().all(|s| is_straight_statement(s))
}

fn are_runnable(stmts: &[CStmt]) -> bool
    ensures { result ≡ are_runnable stmts.now }
{
    let Some(CStmt::Loop(_, block)) = stmts.get(0) else {
        return are_straight(stmts);
    };
    block.end == stmts.len() as u64 && are_straight(&stmts[1..])
}

fn code_runs(f: &CFun) -> bool
    ensures { result ≡ is_runnable_code (fun_of f.now).code }
{
    are_runnable(f.stmts.as_slice())
}

fn are_local(vars: &[CVar]) -> bool
    ensures { result ≡ list_all is_local vars.now }
{
    vars.iter().all(|v| names_local(v.name.as_bytes()))
}

fn function_runs(f: &CFun) -> bool
    ensures { result ≡ is_runnable_function (fun_of f.now) }
{
    are_local(f.params.as_slice()) && are_local(f.locals.as_slice()) && code_runs(f)
}

fn item_runs(item: &CItem) -> bool
    ensures { result ≡ item_runs item.now }
{
    match item {
        CItem::Extern(_) => false,
        CItem::Global(_) => false,
        CItem::Declared(_, name, _) => !begins_as_entry(name.as_bytes()),
        CItem::Defined(f) => !begins_as_entry(f.name.as_bytes()) && function_runs(f),
    }
}

fn items_run(items: &[CItem]) -> bool
    ensures { result ≡ list_all item_runs items.now }
{
    items.iter().all(|i| item_runs(i))
}

/// Whether a program has no form but those that the machine does so far.
pub fn is_runnable(items: &[CItem]) -> bool
    ensures { result ≡ is_runnable (items_of items.now) }
{
    items_run(items)
}
