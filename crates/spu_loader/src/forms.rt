//! Instructions as they are written, by what their formats have.

ghost use Rattle.std.specs.Prelude.{◌≡◌, ◌^◌, ◌<◌, pos};
ghost use Rattle.spu_word.specs.declared.limits.TheConstants.{REGISTER_COUNT};
ghost use Rattle.spu_isa.specs.Table.{signed};
ghost use Rattle.spu_loader.specs.Forms.{
  channel as channel_form,
  ri as ri_form,
  rr as rr_form,
  rrr as rrr_form,
  wide as wide_form,
};

use spu_isa::{Inst, Op};

/// An instruction with a result and two source registers.
pub(crate) const fn rr(op: Op, rt: u8, ra: u8, rb: u8) -> Inst
    ensures { result ≡ rr_form op rt ra rb }
{
    Inst {
        op,
        rt,
        ra,
        rb,
        rc: 0,
        imm: 0,
    }
}

/// An instruction with a result and three source registers.
pub(crate) const fn rrr(op: Op, rt: u8, ra: u8, rb: u8, rc: u8) -> Inst
    ensures { result ≡ rrr_form op rt ra rb rc }
{
    Inst {
        op,
        rt,
        ra,
        rb,
        rc,
        imm: 0,
    }
}

/// An instruction with a result, a source register and an immediate.
pub(crate) const fn ri(op: Op, rt: u8, ra: u8, imm: i32) -> Inst
    ensures { result ≡ ri_form op rt ra imm }
{
    Inst {
        op,
        rt,
        ra,
        rb: 0,
        rc: 0,
        imm,
    }
}

/// An instruction with a result and an immediate alone.
pub(crate) const fn wide(op: Op, rt: u8, imm: i32) -> Inst
    ensures { result ≡ wide_form op rt imm }
{
    ri(op, rt, 0, imm)
}

/// An instruction of a channel.
pub(crate) const fn channel(op: Op, number: u32, rt: u8) -> Inst
    requires { number < REGISTER_COUNT }
    ensures { result ≡ channel_form op number rt }
{
    rr(op, rt, number as u8, 0)
}

/// A number as an immediate.
pub(crate) const fn immediate(n: u32) -> i32
    requires { n < 2 ^ 31 }
    ensures { result ≡ pos n }
{
    n as i32
}

/// A number below 2 ^ 16 as the immediate of a field of 16 bits, which wraps.
pub(crate) fn wrapped(n: u32) -> i32
    requires { n < 2 ^ 16 }
    ensures { result ≡ signed 16 n }
{
    if n < 0x8000 {
        immediate(n)
    } else {
        immediate(n) - 0x10000
    }
}
