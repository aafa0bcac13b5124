// Actions.
ghost use Rattle.std.specs.Prelude.{◌≡◌, ◌≤◌, ◌+ℤ◌, [], ◌∷◌};
ghost use Rattle.scheme_data.specs.Fixnum.{IsFixnum};
ghost use Rattle.base_io.specs.Causes.{Rose};
ghost use Rattle.base_io.specs.declared.end.End.TheVariants.{Raised};
ghost use Rattle.c_tree.specs.Operations.{wants_of, primitive_op};
ghost use Rattle.c_machine.specs.Steps.{look, acted, performed, Reads, NeedsOperands, NeedsAction, Performs, Stopped, Yields, ranged, unboxed_of};
ghost use Rattle.c_machine.specs.Words.{long_of};

use crate::output::{display, write_all};
use crate::program::{Action, Operand, Operands};
use crate::stepping::{Acc, Flow};
use crate::words::{
    NIL, UNSPEC, bits_of, boxed, boxed_truth, is_less, number_of, status, truth, unboxed,
};
use base_io::{End, Sink};
use built_table::{Primitive, Ty};
use prim_table::ErrCode;
use scheme_data::{Text, is_in_range, is_long};
use std::alloc::Global;

#[inline(always)]
pub fn value(base: usize, slots: &[u64], from: &Operand) -> u64
    requires { Reads base slots.now from.now }
    ensures { result ≡ look base slots.now from.now }
{
    match from {
        Operand::Local(x) => slots[base + *x],
        Operand::Word(w) => *w,
    }
}

// Ends the run by an error.
#[inline(never)]
fn raise(alloc: Global, code: u8, text: &[u8], acc: &mut Acc) -> Flow
    ensures { Stopped (Raised code text.now) result acc.new.end }
{
    match Text::from_bytes(alloc, text) {
        Ok(text) => {
            acc.end = End::Raised(code, text);
            Flow::Over
        }
        Err(_) => Flow::Memory,
    }
}

// The number that a primitive makes, where it is a fixnum.
#[inline(always)]
fn ranged(alloc: Global, p: Primitive, n: i64, acc: &mut Acc) -> Flow
    ensures { Yields (ranged p n) result acc.new.value acc.new.end }
{
    if !is_in_range(n) {
        return raise(alloc, ErrCode::Range.number(), p.name(), acc);
    }
    acc.value = bits_of(n);
    Flow::Going
}

#[inline(always)]
fn sum(alloc: Global, a: u64, b: u64, acc: &mut Acc) -> Flow
    requires left { IsFixnum (long_of a) }
    requires right { IsFixnum (long_of b) }
    ensures { Yields (ranged Primitive.Add (long_of a +ℤ long_of b)) result acc.new.value acc.new.end }
{
    ranged(alloc, Primitive::Add, number_of(a) + number_of(b), acc)
}

#[inline(always)]
fn unbox(alloc: Global, w: u64, acc: &mut Acc) -> Flow
    ensures { Yields (unboxed_of w) result acc.new.value acc.new.end }
{
    if !is_long(w) {
        return raise(alloc, ErrCode::WrongType.number(), Ty::Long.name(), acc);
    }
    acc.value = unboxed(w);
    Flow::Going
}

// Makes the value of an action.
#[inline(always)]
pub fn perform<K: Sink>(
    alloc: Global,
    action: &Action,
    base: usize,
    slots: &[u64],
    acc: &mut Acc,
    out: &mut K,
) -> Flow
    requires { NeedsAction action.now base slots.now }
    ensures does { Performs (performed action.now base slots.now) result acc.new.value acc.new.end (K.written out.old) (K.written out.new) }
    ensures later { K.faults out.old ≤ K.faults out.new }
    ensures cause { result ≡ Flow.WriteFault → Rose (K.faults out.old) (K.faults out.new) }
{
    match action {
        Action::Copy(a) => give_value(acc, value(base, slots, a)),
        Action::BoxLong(a) => give_value(acc, boxed(value(base, slots, a))),
        Action::BoxBool(a) => give_value(acc, boxed_truth(value(base, slots, a))),
        Action::UnboxLong(a) => unbox(alloc, value(base, slots, a), acc),
        Action::Truth(a) => give_value(acc, truth(value(base, slots, a))),
        Action::Raise(code, text) => raise(alloc, *code, text.as_bytes(), acc),
        Action::Args => give_value(acc, NIL),
        Action::Status(a) => give_value(acc, status(value(base, slots, a))),
        Action::Primitive(p, operands) => act(alloc, *p, operands, base, slots, acc, out),
    }
}

// Makes the value of a primitive.
#[inline(always)]
fn act<K: Sink>(
    alloc: Global,
    p: Primitive,
    operands: &Operands,
    base: usize,
    slots: &[u64],
    acc: &mut Acc,
    out: &mut K,
) -> Flow
    requires { NeedsOperands base slots.now (wants_of (primitive_op p)) (operands.now.first ∷ operands.now.second ∷ operands.now.third ∷ []) }
    ensures does { Performs (acted p (look base slots.now operands.now.first) (look base slots.now operands.now.second) (look base slots.now operands.now.third)) result acc.new.value acc.new.end (K.written out.old) (K.written out.new) }
    ensures later { K.faults out.old ≤ K.faults out.new }
    ensures cause { result ≡ Flow.WriteFault → Rose (K.faults out.old) (K.faults out.new) }
{
    let Operands { first, second, .. } = operands;
    match p {
        Primitive::Add => sum(
            alloc,
            value(base, slots, first),
            value(base, slots, second),
            acc,
        ),
        Primitive::Less => give_value(
            acc,
            is_less(value(base, slots, first), value(base, slots, second)),
        ),
        Primitive::Display => {
            acc.value = UNSPEC;
            display(out, value(base, slots, first))
        }
        Primitive::Newline => {
            acc.value = UNSPEC;
            write_all(out, b"\n")
        }
    }
}

#[inline(always)]
fn give_value(acc: &mut Acc, v: u64) -> Flow
    ensures { (result ≡ Flow.Going) × (acc.new.value ≡ v) }
{
    acc.value = v;
    Flow::Going
}
