//! Programs of a few steps each.

ghost use Rattle.std.specs.Prelude.{◌≡◌, ◌≢◌, ◌<◌, ◌-◌, ℕ, All, codes, length, true, Some, slice_get, pos, IfOk, IfSome};
ghost use Rattle.spu_lift.specs.declared.program.Operand.TheVariants as operand;
ghost use Rattle.spu_lift.specs.declared.program.Prog.{Prog};
ghost use Rattle.spu_lift.specs.declared.program.SymInst.{SymInst};
ghost use Rattle.spu_lift.specs.Places.{IsPlace, kind_of};
ghost use Rattle.spu_isa.specs.declared.operation.Kind.TheVariants as kind;
ghost use Rattle.spu_lift.specs.StartCode.{start_code};
ghost use Rattle.spu_lift.specs.WellFormed.{needs_operand, IsCallee, IsOperand, IsInstruction, IsRising, IsWellFormed};

use spu_elf::is_name;
use spu_isa::{Inst, Kind, Op, info};
use spu_lift::{CodeSection, Function, Operand, Prog, SymInst};
use spu_word::limits::{DATA_START, WORD_SIZE};
use spu_word::{OutOfMemory, Seq};
use std::alloc::Global;

/// An instruction of a sample.
#[derive(Clone, Copy)]
pub enum Step {
    /// `il $r,k`
    Load(u8, i32),
    /// `ai $r,$r,k`
    Add(u8, i32),
    /// `a $1,$1,$r`
    AddRegister(u8),
    /// `br` to a place
    Branch(u32),
    /// A branch with a test of $3, to a place
    Test(Op, u32),
    /// `brsl $0` to a function
    Call(u32),
    /// `br` to another function
    Jump(u32),
    /// `bisl $0,$2`
    CallPointer,
    /// `bi $2`
    JumpPointer,
    /// An indirect branch on $r with a test of $3
    TestPointer(Op, u8),
    /// `bi $0`
    Return,
    /// `stop`
    Stop,
    /// `nop`
    Nothing,
}

/// What of a sample's addresses is taken: functions, and places of `main`. Both rise.
#[derive(Clone, Copy)]
pub struct Taken<'a> {
    pub functions: &'a [u32],
    pub places: &'a [u32],
}

/// Nothing is taken.
pub const NONE: Taken<'static> = Taken {
    functions: &[],
    places: &[],
};

/// A frame of 32 bytes, and calls of the second and the third function.
pub const CALLER: &[Step] = &[
    Step::Add(1, -32),
    Step::Call(2),
    Step::Call(3),
    Step::Add(1, 32),
    Step::Return,
];

/// A frame of 48 bytes, and a call of the third function.
pub const MIDDLE: &[Step] = &[
    Step::Add(1, -48),
    Step::Call(3),
    Step::Add(1, 48),
    Step::Return,
];

/// A frame of 16 bytes.
pub const LEAF: &[Step] = &[Step::Add(1, -16), Step::Add(1, 16), Step::Return];

/// An instruction of two registers and an immediate field.
fn of_registers(op: Op, rt: u8, ra: u8, rb: u8, imm: i32) -> Inst
    ensures { result ≡ record { op = op; rt = rt; ra = ra; rb = rb; rc = 0; imm = imm } }
{
    Inst {
        op,
        rt,
        ra,
        rb,
        rc: 0,
        imm,
    }
}

/// The instruction of a step.
fn instruction(step: Step) -> SymInst {
    let (inst, operand) = match step {
        Step::Load(r, k) => (of_registers(Op::Il, r, 0, 0, k), Operand::Plain),
        Step::Add(r, k) => (of_registers(Op::Ai, r, r, 0, k), Operand::Plain),
        Step::AddRegister(r) => (of_registers(Op::A, 1, 1, r, 0), Operand::Plain),
        Step::Branch(i) => (of_registers(Op::Br, 0, 0, 0, 0), Operand::Branch(i)),
        Step::Test(op, i) => (of_registers(op, 3, 0, 0, 0), Operand::Branch(i)),
        Step::Call(g) => (of_registers(Op::Brsl, 0, 0, 0, 0), Operand::Call(g)),
        Step::Jump(g) => (of_registers(Op::Br, 0, 0, 0, 0), Operand::Jump(g)),
        Step::CallPointer => (of_registers(Op::Bisl, 0, 2, 0, 0), Operand::Plain),
        Step::JumpPointer => (of_registers(Op::Bi, 0, 2, 0, 0), Operand::Plain),
        Step::TestPointer(op, r) => (of_registers(op, 3, r, 0, 0), Operand::Plain),
        Step::Return => (of_registers(Op::Bi, 0, 0, 0, 0), Operand::Plain),
        Step::Stop => (of_registers(Op::Stop, 0, 0, 0, 0), Operand::Plain),
        Step::Nothing => (of_registers(Op::Nop, 0, 0, 0, 0), Operand::Plain),
    };
    SymInst { inst, operand }
}

/// Whether an operation's field can't be its own.
fn needs_operand(op: Op) -> bool
    ensures { result ≡ needs_operand op }
{
    match op {
        Op::Lqr | Op::Stqr => true,
        _ => match info(op).kind {
            Kind::Branch | Kind::Call => true,
            Kind::Compute
            | Kind::Load
            | Kind::Store
            | Kind::Indirect
            | Kind::PointerCall
            | Kind::HaltTest
            | Kind::ChannelOp
            | Kind::StopOp
            | Kind::Nothing => false,
        },
    }
}

/// Where an instruction stands: in function f of so many, the start code among them, which has so many words.
#[derive(Clone, Copy)]
struct Spot {
    function: u32,
    functions: u32,
    words: usize,
}

/// Whether a function can be called.
fn is_callee(g: u32, functions: u32) -> bool
    ensures { result ≡ true → (p : Prog) → length p.functions ≡ functions → IsCallee p g }
{
    0 < g && g < functions
}

/// Whether an operand may stand in an instruction.
fn may_stand(x: &SymInst, at: Spot) -> bool
    ensures { result ≡ true → (p : Prog) → length p.functions ≡ at.functions → ((i : ℕ) → i < at.words → IsPlace p at.function i) → IsOperand p at.function x.now x.now.operand }
{
    match x.operand {
        Operand::Plain => !needs_operand(x.inst.op),
        Operand::Call(g) => info(x.inst.op).kind == Kind::Call && is_callee(g, at.functions),
        Operand::Jump(g) => {
            info(x.inst.op).kind == Kind::Branch && is_callee(g, at.functions) && g != at.function
        }
        Operand::Branch(i) => info(x.inst.op).kind == Kind::Branch && (i as usize) < at.words,
        Operand::Number(_) | Operand::Address(_) => false,
    }
}

/// Whether an instruction doesn't call, or leaves its link in the link register.
fn links(x: &SymInst) -> bool
    ensures call { result ≡ true → kind_of x.now ≡ kind.Call → x.now.inst.rt ≡ 0 }
    ensures pointer_call { result ≡ true → kind_of x.now ≡ kind.PointerCall → x.now.inst.rt ≡ 0 }
{
    match info(x.inst.op).kind {
        Kind::Call | Kind::PointerCall => x.inst.rt == 0,
        Kind::Compute
        | Kind::Load
        | Kind::Store
        | Kind::Branch
        | Kind::Indirect
        | Kind::HaltTest
        | Kind::ChannelOp
        | Kind::StopOp
        | Kind::Nothing => true,
    }
}

/// Whether an instruction's field is empty, or nothing else stands for it.
fn is_alone(x: &SymInst) -> bool
    ensures { result ≡ true → (x.now.operand ≡ operand.Plain → ⊥) → x.now.inst.imm ≡ pos 0 }
{
    x.operand == Operand::Plain || x.inst.imm == 0
}

/// Whether an instruction may stand there.
fn is_fine(x: &SymInst, at: Spot) -> bool
    ensures { result ≡ true → (p : Prog) → length p.functions ≡ at.functions → ((i : ℕ) → i < at.words → IsPlace p at.function i) → IsInstruction p at.function x.now }
{
    x.inst.in_range() && is_alone(x) && may_stand(x, at) && links(x)
}

/// The instructions of steps, None where one may not stand.
fn code_of(
    alloc: Global,
    f: u32,
    functions: u32,
    steps: &[Step],
) -> Result<Option<Seq<SymInst>>, OutOfMemory>
    ensures count { IfOk result (λ o. IfSome o (λ code. length code ≡ length steps.now)) }
    ensures fine { IfOk result (λ o. IfSome o (λ code. (k : ℕ) (x : SymInst) → slice_get code k ≡ Some x
        → (p : Prog) → length p.functions ≡ functions → ((i : ℕ) → i < length steps.now → IsPlace p f i) → IsInstruction p f x)) }
{
    let at = Spot {
        function: f,
        functions,
        words: steps.len(),
    };
    let mut code = Seq::new(alloc);
    for step in steps {
        let x = instruction(*step);
        if is_fine(&x, at) {
            code.push(x)?;
        } else {
            return Ok(None);
        }
    }
    Ok(Some(code))
}

/// The start code of a program without data.
fn start_function(alloc: Global) -> Result<Function, OutOfMemory>
    ensures { IfOk result (λ f. f ≡ start_code 128 1) }
{
    let mut code = Seq::new(alloc);
    code.push(SymInst {
        inst: of_registers(Op::Lqr, 1, 0, 0, 0),
        operand: Operand::Number(DATA_START),
    })?;
    code.push(SymInst {
        inst: of_registers(Op::Brsl, 0, 0, 0, 0),
        operand: Operand::Call(1),
    })?;
    code.push(SymInst {
        inst: of_registers(Op::Stop, 0, 0, 0, 0x2000),
        operand: Operand::Plain,
    })?;
    Ok(Function {
        name: Seq::copied(alloc, b"_start")?,
        global: false,
        section: 0,
        offset: 0,
        code,
        taken: Seq::new(alloc),
    })
}

/// A function in the section before it by number, and those of its places that are taken.
fn function_of(
    alloc: Global,
    f: u32,
    name: &[u8],
    code: Seq<SymInst>,
    taken: Seq<u32>,
) -> Result<Function, OutOfMemory>
    requires { 0 < f }
    ensures { IfOk result (λ g. g ≡ record { name = name.now; global = true; section = f - 1; offset = 0; code = code; taken = taken }) }
{
    Ok(Function {
        name: Seq::copied(alloc, name)?,
        global: true,
        section: f - 1,
        offset: 0,
        code,
        taken,
    })
}

/// Numbers that rise, lie behind 0 and come before an end. None where they don't.
fn taken_numbers(
    alloc: Global,
    numbers: &[u32],
    end: usize,
) -> Result<Option<Seq<u32>>, OutOfMemory>
    ensures rising { IfOk result (λ o. IfSome o IsRising) }
    ensures inside { IfOk result (λ o. IfSome o (All (λ n. (0 < n) × (n < end)))) }
{
    let mut all = Seq::new(alloc);
    let mut least = 1;
    for n in numbers {
        let at = *n as usize;
        if at < least || end <= at {
            return Ok(None);
        }
        all.push(*n)?;
        least = at + 1;
    }
    Ok(Some(all))
}

/// The places of a function that are taken.
fn places_of<'a>(f: u32, taken: Taken<'a>) -> &'a [u32] {
    if f == 1 { taken.places } else { &[] }
}

/// The name of a function by its number: each from the fourth on has the same.
pub fn name_at(f: u32) -> &'static [u8]
    ensures first { f ≡ 1 → result.now ≡ codes "main" }
    ensures second { f ≡ 2 → result.now ≡ codes "a" }
    ensures third { f ≡ 3 → result.now ≡ codes "b" }
    ensures others { f ≢ 1 → f ≢ 2 → f ≢ 3 → result.now ≡ codes "other" }
{
    match f {
        1 => b"main",
        2 => b"a",
        3 => b"b",
        _ => b"other",
    }
}

/// The program of functions with these bodies, of which `main` is the first. None where it wouldn't be well formed.
pub fn program(alloc: Global, bodies: &[&[Step]], taken: Taken) -> Result<Option<Prog>, OutOfMemory>
    ensures { IfOk result (λ o. IfSome o IsWellFormed) }
{
    if bodies.is_empty() || bodies.len() > 65536 {
        return Ok(None);
    }
    let count = bodies.len() as u32 + 1;
    let mut functions = Seq::new(alloc);
    functions.push(start_function(alloc)?)?;
    let mut code = Seq::new(alloc);
    for body in bodies {
        let f = functions.len() as u32;
        let name = name_at(f);
        if body.is_empty() || body.len() > 65536 {
            return Ok(None);
        }
        if is_name(name) {
            match code_of(alloc, f, count, body)? {
                Some(words) => match taken_numbers(alloc, places_of(f, taken), body.len())? {
                    Some(places) => {
                        code.push(CodeSection {
                            name: Seq::copied(alloc, b".text")?,
                            size: WORD_SIZE * body.len() as u32,
                        })?;
                        functions.push(function_of(alloc, f, name, words, places)?)?;
                    }
                    None => return Ok(None),
                },
                None => return Ok(None),
            }
        } else {
            return Ok(None);
        }
    }
    match taken_numbers(alloc, taken.functions, count as usize)? {
        Some(all) => Ok(Some(Prog {
            functions,
            code,
            parts: Seq::new(alloc),
            taken: all,
            entry: 1,
            ears: Seq::new(alloc),
            globals: Seq::new(alloc),
            data_end: u64::from(DATA_START),
        })),
        None => Ok(None),
    }
}
