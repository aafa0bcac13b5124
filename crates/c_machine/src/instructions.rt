// From expressions to instructions.
ghost use Rattle.std.specs.Prelude.{◌≡◌, map, slice_get, IfOk};
ghost use Rattle.built_table.specs.Table.{built};
ghost use Rattle.c_machine.specs.Decoded.{operand_of, operand_in, operand_at, operands_in, code_in, text_in, no_action, action_by, action_of, call_of, expr_instr};

use crate::names::{local_place, place};
use crate::program::{Action, Instr, Operand, Operands, Target};
use crate::words::{EOF, FALSE, NIL, TRUE, UNSPEC, bits_of, byte};
use built_table::Primitive;
use c_check::Places;
use c_tree::{CArg, CAtom, CCall, CExpr, Callee, Op};
use name_table::NameTable;
use scheme_data::{List, OutOfMemory, Text};
use std::alloc::Global;

fn atom(names: &Places, a: &CAtom) -> Operand
    ensures { result ≡ operand_of names.now a.now }
{
    match a {
        CAtom::Int(n) => Operand::Word(bits_of(*n)),
        CAtom::Name(x) => Operand::Local(local_place(names, x.as_bytes())),
        CAtom::Sym(_) => Operand::Word(UNSPEC),
        CAtom::False => Operand::Word(FALSE),
        CAtom::True => Operand::Word(TRUE),
        CAtom::Nil => Operand::Word(NIL),
        CAtom::Unspec => Operand::Word(UNSPEC),
        CAtom::Eof => Operand::Word(EOF),
    }
}

fn argument(names: &Places, a: &CArg) -> Operand
    ensures { result ≡ operand_in names.now a.now }
{
    match a {
        CArg::Atom(a) => atom(names, a),
        CArg::Str(_) => Operand::Word(0),
        CArg::Entry(_) => Operand::Word(0),
    }
}

fn argument_at(names: &Places, args: &List<CArg>, i: u64) -> Operand
    ensures { result ≡ operand_at names.now args.now i }
{
    match args.get(i) {
        Some(a) => argument(names, a),
        None => Operand::Word(0),
    }
}

fn arguments(alloc: Global, names: &Places, args: &List<CArg>) -> Result<List<Operand>, OutOfMemory>
    ensures { IfOk result (λ operands. operands ≡ map (operand_in names.now) args.now) }
{
    let mut operands = List::new(alloc);
    for a in args.as_slice() {
        operands.push(argument(names, a))?;
    }
    Ok(operands)
}

fn code_at(args: &List<CArg>) -> u8
    ensures { result ≡ code_in (slice_get args.now 0) }
{
    match args.get(0) {
        Some(CArg::Atom(CAtom::Int(n))) => byte(*n),
        _ => 0,
    }
}

fn text_at(alloc: Global, args: &List<CArg>) -> Result<Text, OutOfMemory>
    ensures { IfOk result (λ text. text ≡ text_in (slice_get args.now 1)) }
{
    match args.get(1) {
        Some(CArg::Str(text)) => text.copy(alloc),
        _ => Ok(Text::new(alloc)),
    }
}

fn operands(names: &Places, args: &List<CArg>) -> Operands
    ensures { result ≡ operands_in names.now args.now }
{
    Operands {
        first: argument_at(names, args, 0),
        second: argument_at(names, args, 1),
        third: argument_at(names, args, 2),
    }
}

// What stands where no plain program has an action.
fn no_action() -> Action
    ensures { result ≡ no_action }
{
    Action::Copy(Operand::Word(0))
}

fn primitive(p: prim_table::Primitive, operands: Operands) -> Action
    ensures { result ≡ action_by (built p) operands }
{
    match Primitive::of_table(p) {
        Some(p) => Action::Primitive(p, operands),
        None => no_action(),
    }
}

fn action(alloc: Global, names: &Places, op: Op, args: &List<CArg>) -> Result<Action, OutOfMemory>
    ensures { IfOk result (λ a. a ≡ action_of names.now op args.now) }
{
    match op {
        Op::BoxLong => Ok(Action::BoxLong(argument_at(names, args, 0))),
        Op::BoxBool => Ok(Action::BoxBool(argument_at(names, args, 0))),
        Op::UnboxLong => Ok(Action::UnboxLong(argument_at(names, args, 0))),
        Op::Truth => Ok(Action::Truth(argument_at(names, args, 0))),
        Op::Raise => Ok(Action::Raise(code_at(args), text_at(alloc, args)?)),
        Op::Args => Ok(Action::Args),
        Op::Status => Ok(Action::Status(argument_at(names, args, 0))),
        Op::Primitive(p) => Ok(primitive(p, operands(names, args))),
        _ => Ok(no_action()),
    }
}

pub fn call(
    alloc: Global,
    names: &Places,
    funs: &NameTable,
    to: Target,
    c: &CCall,
) -> Result<Instr, OutOfMemory>
    ensures { IfOk result (λ i. i ≡ call_of names.now funs.now to c.now.callee c.now.args) }
{
    match &c.callee {
        Callee::Fun(g) => Ok(Instr::Call(
            to,
            place(funs, g.as_bytes()),
            arguments(alloc, names, &c.args)?,
        )),
        Callee::Op(op) => Ok(Instr::Does(to, action(alloc, names, *op, &c.args)?)),
    }
}

pub fn expression(
    alloc: Global,
    names: &Places,
    funs: &NameTable,
    to: Target,
    e: &CExpr,
) -> Result<Instr, OutOfMemory>
    ensures { IfOk result (λ i. i ≡ expr_instr names.now funs.now to e.now) }
{
    match e {
        CExpr::Atom(a) => Ok(Instr::Does(to, Action::Copy(atom(names, a)))),
        CExpr::Call(c) => call(alloc, names, funs, to, c),
    }
}
