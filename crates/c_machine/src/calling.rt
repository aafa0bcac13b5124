// Calls, returns and turns.
ghost use Rattle.std.specs.Prelude.{◌≡◌, ◌++◌, ◌∷◌, [], ◌<◌, map, replicate, length, IsTrue, Some};
ghost use Rattle.base_io.specs.declared.end.End.{End};
ghost use Rattle.c_machine.specs.Steps.{config_of, look, called, returned, turned, Moves, NeedsFrames, ReadsAll};

use crate::performing::value;
use crate::program::{BLOCK, FIRST, Function, Operand, Target};
use crate::stepping::{Acc, Flow, Frame, Regs, Stacks, deliver};
use base_io::End;
use scheme_data::List;

// Ends the run.
#[inline(always)]
pub fn over(acc: &mut Acc, end: End) -> Flow
    ensures { (result ≡ Flow.Over) × (acc.new.end ≡ end) }
{
    acc.end = end;
    Flow::Over
}

#[inline(always)]
pub fn turn(regs: &mut Regs, stacks: &Stacks, acc: &mut Acc) -> Flow
    ensures { Moves (turned regs.old.turns (config_of regs.old stacks.now acc.old.value)) result (config_of regs.new stacks.now acc.new.value) acc.new.end }
{
    if regs.turns == 0 {
        return over(acc, End::Spent);
    }
    regs.turns -= 1;
    regs.pc = BLOCK;
    Flow::Going
}

#[inline(never)]
pub fn give(regs: &mut Regs, stacks: &mut Stacks, acc: &mut Acc) -> Flow
    requires { NeedsFrames stacks.old.frames (config_of regs.old stacks.old acc.old.value) }
    ensures { Moves (returned stacks.old.frames (config_of regs.old stacks.old acc.old.value)) result (config_of regs.new stacks.new acc.new.value) acc.new.end }
{
    match stacks.frames.pop() {
        None => over(acc, End::Ended(acc.value as u8)),
        Some(frame) => {
            stacks.slots.truncate(regs.base);
            regs.fun = frame.fun;
            regs.pc = frame.next;
            regs.base = frame.base;
            deliver(frame.to, acc.value, regs, stacks);
            Flow::Going
        }
    }
}

// The values of the arguments, behind the slots.
fn push_values(slots: &mut Vec<u64>, base: usize, args: &[Operand]) -> bool
    requires { ReadsAll base slots.old.items args.now }
    ensures { IsTrue result → slots.new.items ≡ slots.old.items ++ map (look base slots.old.items) args.now }
{
    for from in args {
        let v = value(base, slots.as_slice(), from);
        if slots.push(v).is_err() {
            return false;
        }
    }
    true
}

/// Zeros behind the slots.
pub fn push_zeros(slots: &mut Vec<u64>, count: usize) -> bool
    ensures { IsTrue result → slots.new.items ≡ slots.old.items ++ replicate count 0 }
{
    for i in 0..count {
        if slots.push(0).is_err() {
            return false;
        }
    }
    true
}

// The slots of a call, and the frame that waits for it.
#[inline(never)]
fn push_frame(stacks: &mut Stacks, args: &[Operand], locals: usize, frame: Frame) -> bool
    requires { ReadsAll frame.base stacks.old.slots.items args.now }
    ensures slots { IsTrue result → stacks.new.slots.items ≡ stacks.old.slots.items ++ (map (look frame.base stacks.old.slots.items) args.now ++ replicate locals 0) }
    ensures frames { IsTrue result → stacks.new.frames ≡ frame ∷ stacks.old.frames }
{
    if !push_values(&mut stacks.slots, frame.base, args) {
        return false;
    }
    if !push_zeros(&mut stacks.slots, locals) {
        return false;
    }
    stacks.frames.push(frame).is_ok()
}

#[inline(always)]
pub fn call(
    callee: &Function,
    to: Target,
    fun: usize,
    args: &List<Operand>,
    regs: &mut Regs,
    stacks: &mut Stacks,
    acc: &Acc,
) -> Flow
    requires { ReadsAll regs.old.base stacks.old.slots.items args.now }
    ensures { (end : End) → Moves (called (Some callee.now) to fun args.now (config_of regs.old stacks.old acc.now.value)) result (config_of regs.new stacks.new acc.now.value) end }
{
    let base = stacks.slots.len();
    let frame = Frame {
        to,
        fun: regs.fun,
        next: regs.pc,
        base: regs.base,
    };
    if !push_frame(stacks, args.as_slice(), callee.locals, frame) {
        return Flow::Memory;
    }
    regs.fun = fun;
    regs.pc = FIRST;
    regs.base = base;
    Flow::Going
}
