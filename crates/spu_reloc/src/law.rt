//! What a patched word is, and what its instruction does.

ghost use Rattle.std.specs.Prelude.{◌≡◌, ◌<◌, ◌%◌, ◌^◌, ℕ, true};
ghost use Rattle.spu_isa.specs.declared.operation.Op.{Op};
ghost use Rattle.spu_isa.specs.declared.instruction.Inst.{Inst};
ghost use Rattle.spu_isa.specs.Table.{Decodes, InRange};
ghost use Rattle.spu_reloc.specs.declared.field.RelocKind.{RelocKind};
ghost use Rattle.spu_reloc.specs.Fields.{fits_on, kind_on, patched, relocated};
ghost use Rattle.spu_reloc.specs.Meanings.{Means};

use crate::field::{RelocKind, patch};
use spu_isa::{Inst, encode};

/// A word of an instruction, patched by a kind that fits it, is the same instruction with the field that the kind stores;
/// and at the address that it was patched for, it means the value.
pub fn patched_word()
    ensures decodes { (w : ℕ) (x : Inst) (k : RelocKind) (v at : ℕ) → Decodes w x → fits_on k x.op ≡ true → Decodes (patched w k v at) (relocated k v at x) }
    ensures means { (x : Inst) (k : RelocKind) (v at : ℕ) → fits_on k x.op ≡ true → at < 2 ^ 32 → at % 4 ≡ 0 → Means k v at (relocated k v at x) }
    ensures one_kind { (k : RelocKind) (o : Op) → fits_on k o ≡ true → k ≡ kind_on o }
{}

/// The word of an instruction whose field holds what a kind stores of a value, at an address.
#[tactic(auto, using(crate::proofs::Patches::patched_decodes))]
pub fn relocated_word(i: &Inst, kind: RelocKind, value: u32, at: u32) -> u32
    requires range { InRange i.now }
    requires fits { fits_on kind i.now.op ≡ true }
    ensures decodes { Decodes result (relocated kind value at i.now) }
{
    patch(encode(i), kind, value, at)
}
