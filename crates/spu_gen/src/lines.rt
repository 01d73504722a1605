//! The instructions of a workload's functions.

ghost use Rattle.std.specs.Prelude.{◌≡◌, ◌≤◌, ◌++◌, length, OnOk, IfOk};
ghost use Rattle.spu_isa.specs.Table.{InRange};
ghost use Rattle.spu_gen.specs.Workloads.{bare, call_of, code_of, instruction, main_code, padding, sender_code};

use spu_isa::{Inst, Op};
use spu_word::OutOfMemory;
use std::alloc::Global;

/// The most functions of a workload beside `main`.
pub const MAX_SENDERS: u32 = 400;

/// The most instructions of a function.
pub const MAX_LINES: usize = 265;

/// The channel of the outbound mailbox.
pub const OUTBOX: u8 = 28;

/// An instruction of a workload.
#[derive(Clone, Copy, PartialEq, Eq, Debug)]
pub enum Line {
    /// `stqd $0,16($1)`
    KeepLink,
    /// `stqd $1,-32($1)`
    KeepPointer,
    /// `ai $1,$1,-32`
    Enter,
    /// `il $3`, of what a function with this number sends.
    Load(u32),
    /// `wrch 28,$3`
    Send,
    /// `nop`
    Nop,
    /// `brsl $0`, of the function with this index.
    Call(u32),
    /// `ila $2`, of the function with this index.
    Address(u32),
    /// `bisl $0,$2`
    CallPointer,
    /// `ai $1,$1,32`
    Leave,
    /// `lqd $0,16($1)`
    TakeLink,
    /// `bi $0`
    Return,
}

/// The instruction of these fields.
fn instruction(op: Op, rt: u8, ra: u8, imm: i32) -> Inst
    ensures { result ≡ instruction op rt ra imm }
{
    Inst {
        op,
        rt,
        ra,
        rb: 0,
        rc: 0,
        imm,
    }
}

impl Line {
    /// The instruction; its field is 0 where it names a function.
    pub fn bare(self) -> Inst
        ensures exact { result ≡ bare self }
        ensures range { InRange result }
    {
        match self {
            Line::KeepLink => instruction(Op::Stqd, 0, 1, 1),
            Line::KeepPointer => instruction(Op::Stqd, 1, 1, -2),
            Line::Enter => instruction(Op::Ai, 1, 1, -32),
            Line::Load(draw) => instruction(Op::Il, 3, 0, (draw >> 17) as i32),
            Line::Send => instruction(Op::Wrch, 3, OUTBOX, 0),
            Line::Nop => instruction(Op::Nop, 0, 0, 0),
            Line::Call(_) => instruction(Op::Brsl, 0, 0, 0),
            Line::Address(_) => instruction(Op::Ila, 2, 0, 0),
            Line::CallPointer => instruction(Op::Bisl, 0, 2, 0),
            Line::Leave => instruction(Op::Ai, 1, 1, 32),
            Line::TakeLink => instruction(Op::Lqd, 0, 1, 1),
            Line::Return => instruction(Op::Bi, 0, 0, 0),
        }
    }
}

/// The return address is kept, and a frame of 32 bytes begun.
const ENTERS: [Line; 3] = [Line::KeepLink, Line::KeepPointer, Line::Enter];

/// The frame is left, and the return address taken again.
const LEAVES: [Line; 3] = [Line::Leave, Line::TakeLink, Line::Return];

/// The code of `main`: it calls the first function by a pointer.
fn main_code(alloc: Global) -> Result<Vec<Line>, OutOfMemory>
    ensures { IfOk result (λ lines. lines.items ≡ main_code) }
{
    let mut lines = Vec::from_slice(alloc, &ENTERS)?;
    lines.push(Line::Address(1))?;
    lines.push(Line::CallPointer)?;
    lines.extend_from_slice(&LEAVES)?;
    Ok(lines)
}

/// How many `nop`s a function with this number has.
fn padding(draw: u32) -> u32
    ensures { result ≡ padding draw }
{
    (draw >> 8) % 256
}

/// Adds a call of a function, if there is one of this index.
fn add_call(lines: &mut Vec<Line>, count: u32, index: u32) -> Result<(), OutOfMemory>
    ensures { OnOk result (lines.new.items ≡ lines.old.items ++ call_of count index) }
{
    if index <= count {
        lines.push(Line::Call(index))?;
    }
    Ok(())
}

/// The code of another function: it sends a part of its number, goes over `nop`s, and calls two others where there are so many.
fn sender_code(alloc: Global, count: u32, index: u32, draw: u32) -> Result<Vec<Line>, OutOfMemory>
    requires { index ≤ MAX_SENDERS }
    ensures { IfOk result (λ lines. lines.items ≡ sender_code count index draw) }
{
    let mut lines = Vec::from_slice(alloc, &ENTERS)?;
    lines.push(Line::Load(draw))?;
    lines.push(Line::Send)?;
    for _ in 0..padding(draw) {
        lines.push(Line::Nop)?;
    }
    add_call(&mut lines, count, 2 * index)?;
    add_call(&mut lines, count, 2 * index + 1)?;
    lines.extend_from_slice(&LEAVES)?;
    Ok(lines)
}

#[tactic(auto, using(crate::proofs::Codes::code_short))]
/// The code of the function with this index, of a workload with so many functions beside `main`, whose index is 0; `draw` is the
/// function's number in the row of numbers.
pub fn code_of(alloc: Global, count: u32, index: u32, draw: u32) -> Result<Vec<Line>, OutOfMemory>
    requires { index ≤ MAX_SENDERS }
    ensures exact { IfOk result (λ lines. lines.items ≡ code_of count index draw) }
    ensures short { IfOk result (λ lines. length lines.items ≤ MAX_LINES) }
{
    if index == 0 {
        main_code(alloc)
    } else {
        sender_code(alloc, count, index, draw)
    }
}
