//! The words of places: instructions with their operands in their fields.

ghost use Rattle.std.specs.Prelude.{◌≡◌, ◌<◌, length, true, Some, IfOk};
ghost use Rattle.spu_isa.specs.Table.{InRange};
ghost use Rattle.spu_reloc.specs.Fields.{fits_on, kind_on};
ghost use Rattle.spu_lift.specs.Places.{instruction_at};
ghost use Rattle.spu_lift.specs.WellFormed.{IsOperand};
ghost use Rattle.spu_layout.specs.Views.{layout_in};
ghost use Rattle.spu_image.specs.Words.{IsPatched, IsWord, value_of};
ghost use Rattle.spu_image.specs.Images.{AreWords};
ghost use Rattle.spu_image.specs.Filling.{IsLaidOut, IsCodeOf};

use spu_isa::encode;
use spu_layout::Layout;
use spu_lift::{Operand, Prog, SymInst};
use spu_reloc::{fitting, patch};
use spu_word::{OutOfMemory, Seq};
use std::alloc::Global;

/// The value that the operand of an instruction of function f stands for.
fn operand_value(p: &Prog, layout: &Layout, f: u32, x: &SymInst) -> u32
    requires laid { IsLaidOut p.now layout.now }
    requires known { f < length p.now.functions }
    requires stands { IsOperand p.now f x.now x.now.operand }
    ensures { result ≡ value_of (layout_in layout.now) f x.now.operand }
{
    match x.operand {
        Operand::Plain => 0,
        Operand::Number(n) => n,
        Operand::Address(label) => layout.code(label),
        Operand::Call(g) => layout.call_target(f, g),
        Operand::Jump(g) => layout.jump_target(f, g),
        Operand::Branch(i) => layout.address(f, i),
    }
}

/// The word of an instruction with a value in its field, at an address.
fn patched(x: &SymInst, value: u32, at: u32) -> u32
    requires range { InRange x.now.inst }
    requires fits { fits_on (kind_on x.now.inst.op) x.now.inst.op ≡ true }
    ensures { IsPatched x.now value at result }
{
    match fitting(x.inst.op) {
        Some(kind) => patch(encode(&x.inst), kind, value, at),
        None => unreachable!(),
    }
}

/// The word of place i of function f, which is this instruction.
pub fn place_word(p: &Prog, layout: &Layout, f: u32, i: u32, x: &SymInst) -> u32
    requires laid { IsLaidOut p.now layout.now }
    requires there { instruction_at p.now f i ≡ Some x.now }
    ensures { IsWord (layout_in layout.now) f i x.now result }
{
    match x.operand {
        Operand::Plain => encode(&x.inst),
        _ => patched(x, operand_value(p, layout, f, x), layout.address(f, i)),
    }
}

/// The words of function f, whose instructions these are.
pub fn function_words(
    alloc: Global,
    p: &Prog,
    layout: &Layout,
    f: u32,
    code: &[SymInst],
) -> Result<Seq<u32>, OutOfMemory>
    requires laid { IsLaidOut p.now layout.now }
    requires there { IsCodeOf p.now f code.now }
    ensures { IfOk result (AreWords (layout_in layout.now) f 0 code.now) }
{
    let mut words = Seq::new(alloc);
    for (i, x) in code.iter().enumerate() {
        words.push(place_word(p, layout, f, i as u32, x))?;
    }
    Ok(words)
}
