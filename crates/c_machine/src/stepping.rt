// One instruction.
ghost use Rattle.std.specs.Prelude.{◌≡◌, ◌≤◌, ◌<◌, length, slice_get, IsSome, Some};
ghost use Rattle.base_io.specs.Causes.{Rose};
ghost use Rattle.c_machine.specs.Decoded.{line};
ghost use Rattle.c_machine.specs.Steps.{config_of, performed, delivered, sent, NeedsTarget, NeedsAction, Needs, act, Does, line_at};

use crate::calling::{call, give, over, turn};
use crate::performing::perform;
use crate::program::{Action, Function, GIVE, Instr, Target};
use base_io::{End, FaultKind, Sink};
use scheme_data::Stack;
use std::alloc::Global;

/// The function that runs, the instruction that is next, the function's first slot, and the turns left.
#[derive(Drop)]
pub struct Regs {
    pub fun: usize,
    pub pc: usize,
    pub base: usize,
    pub turns: u64,
}

/// The value that was made last, and how the run ended.
#[derive(Drop)]
pub struct Acc {
    pub value: u64,
    pub end: End,
}

/// A function that waits for the value of its call.
#[derive(Clone, Copy)]
pub struct Frame {
    pub to: Target,
    pub fun: usize,
    pub next: usize,
    pub base: usize,
}

#[derive(Drop)]
pub struct Stacks {
    pub slots: Vec<u64>,
    pub frames: Stack<Frame>,
}

/// How a call went: the run goes on, is over, or was cut off.
#[derive(Clone, Copy, Debug, PartialEq, Eq)]
pub enum Flow {
    Going,
    Over,
    WriteFault,
    Memory,
}

/// Sends a value.
#[inline(always)]
pub fn deliver(to: Target, v: u64, regs: &mut Regs, stacks: &mut Stacks)
    requires { NeedsTarget to regs.old.base stacks.old.slots.items }
    ensures { config_of regs.new stacks.new v ≡ delivered to v (config_of regs.old stacks.old v) }
{
    match to {
        Target::Local(x) => {
            let at = regs.base + x;
            stacks.slots[at] = v;
        }
        Target::Nowhere => {}
        Target::Caller => regs.pc = GIVE,
        Target::Test(other) => {
            if v == 0 {
                regs.pc = other;
            }
        }
    }
}

#[inline(always)]
fn does<K: Sink>(
    alloc: Global,
    to: Target,
    action: &Action,
    regs: &mut Regs,
    acc: &mut Acc,
    stacks: &mut Stacks,
    out: &mut K,
) -> Flow
    requires to { NeedsTarget to regs.old.base stacks.old.slots.items }
    requires action { NeedsAction action.now regs.old.base stacks.old.slots.items }
    ensures does { Does (sent to (performed action.now regs.old.base stacks.old.slots.items) (config_of regs.old stacks.old acc.old.value)) result (config_of regs.new stacks.new acc.new.value) acc.new.end (K.written out.old) (K.written out.new) }
    ensures later { K.faults out.old ≤ K.faults out.new }
    ensures cause { result ≡ Flow.WriteFault → Rose (K.faults out.old) (K.faults out.new) }
{
    let flow = perform(alloc, action, regs.base, stacks.slots.as_slice(), acc, out);
    if let Flow::Going = flow {
        deliver(to, acc.value, regs, stacks);
    }
    flow
}

/// Does one instruction, where the next one is known already.
#[inline(always)]
pub fn step<K: Sink>(
    alloc: Global,
    instr: &Instr,
    funs: &[Function],
    regs: &mut Regs,
    acc: &mut Acc,
    stacks: &mut Stacks,
    out: &mut K,
) -> Flow
    requires { Needs instr.now funs.now (config_of regs.old stacks.old acc.old.value) }
    ensures does { Does (act instr.now funs.now (config_of regs.old stacks.old acc.old.value)) result (config_of regs.new stacks.new acc.new.value) acc.new.end (K.written out.old) (K.written out.new) }
    ensures later { K.faults out.old ≤ K.faults out.new }
    ensures cause { result ≡ Flow.WriteFault → Rose (K.faults out.old) (K.faults out.new) }
{
    match instr {
        Instr::Does(to, action) => does(alloc, *to, action, regs, acc, stacks, out),
        Instr::Call(to, fun, args) => {
            let callee = function_at(funs, *fun);
            call(callee, *to, *fun, args, regs, stacks, acc)
        }
        Instr::Turn => turn(regs, stacks, acc),
        Instr::Give => give(regs, stacks, acc),
        Instr::Stop => over(acc, End::Fault(FaultKind::Tag)),
    }
}

#[inline(always)]
pub fn function_at(funs: &[Function], fun: usize) -> &Function
    requires { fun < length funs.now }
    ensures { slice_get funs.now fun ≡ Some result.now }
{
    &funs[fun]
}

/// The next instruction, after which the one that follows it is the next.
#[inline(always)]
pub fn fetch<'a>(funs: &'a [Function], regs: &mut Regs) -> &'a Instr
    requires { IsSome (line_at funs.now regs.old.fun regs.old.pc) }
    ensures line { line_at funs.now regs.old.fun regs.old.pc ≡ Some (line result.now regs.new.pc) }
    ensures regs { regs.new ≡ record regs.old { pc = regs.new.pc } }
{
    let line = &function_at(funs, regs.fun).code.as_slice()[regs.pc];
    regs.pc = line.next;
    &line.instr
}
