//! The start code of a program.

ghost use Rattle.std.specs.Prelude.{◌≡◌, IfOk};
ghost use Rattle.spu_lift.specs.StartCode.{start_code};

use crate::program::{Function, NORMAL_END, Operand, SymInst};
use spu_isa::{Inst, Op};
use spu_word::{OutOfMemory, Seq};
use std::alloc::Global;

/// An instruction of one register and one immediate field.
fn of_register(op: Op, rt: u8, imm: i32) -> Inst
    ensures { result ≡ record { op = op; rt = rt; ra = 0; rb = 0; rc = 0; imm = imm } }
{
    Inst {
        op,
        rt,
        ra: 0,
        rb: 0,
        rc: 0,
        imm,
    }
}

/// The start code for an entry function, where the data ends at `data_end`.
pub fn start_code(alloc: Global, data_end: u32, entry: u32) -> Result<Function, OutOfMemory>
    ensures { IfOk result (λ f. f ≡ start_code data_end entry) }
{
    let mut code = Seq::new(alloc);
    code.push(SymInst {
        inst: of_register(Op::Lqr, 1, 0),
        operand: Operand::Number(data_end),
    })?;
    code.push(SymInst {
        inst: of_register(Op::Brsl, 0, 0),
        operand: Operand::Call(entry),
    })?;
    code.push(SymInst {
        inst: of_register(Op::Stop, 0, NORMAL_END as i32),
        operand: Operand::Plain,
    })?;
    Ok(Function {
        name: Seq::copied(alloc, b"_start")?,
        global: false,
        section: 0,
        offset: 0,
        code,
        taken: Seq::new(alloc),
    })
}
