//! Why what stands behind a statement's labels means nothing.

ghost use Rattle.std.specs.Prelude.{◌≡◌};
ghost use Rattle.spu_asm.specs.declared.refusals.Refusal.TheVariants as refusals;

use crate::faults::AsmKind;
use spu_word::OutOfMemory;

/// Why a statement is not read.
#[derive(Clone, Copy, PartialEq, Eq, Debug)]
pub enum Refusal {
    /// Its least fault.
    Fault(AsmKind),
    /// Memory ran out.
    OutOfMemory,
}

impl From<OutOfMemory> for Refusal {
    ghost from_gives = { λ _ e. e ≡ refusals.OutOfMemory };

    fn from(_: OutOfMemory) -> Refusal {
        Refusal::OutOfMemory
    }
}

/// A directive against its rules.
pub const BAD_DIRECTIVE: Refusal = Refusal::Fault(AsmKind::BadDirective);
