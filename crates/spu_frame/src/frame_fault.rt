//! Why a program has no frames.

ghost use Rattle.std.specs.Prelude.{◌≡◌};
ghost use Rattle.spu_frame.specs.declared.frame_fault.FrameFault.TheVariants as outcomes;

use crate::faults::FrameKind;
use spu_word::OutOfMemory;

/// Why a program has no frames.
#[derive(Clone, Copy, PartialEq, Eq, Debug)]
pub enum FrameFault {
    /// L14 to L17, at a place of a function, by the function's number and the place's index.
    Fault {
        kind: FrameKind,
        function: u32,
        place: u32,
    },
    /// Memory ran out.
    OutOfMemory,
}

impl From<OutOfMemory> for FrameFault {
    ghost from_gives = { λ _ e. e ≡ outcomes.OutOfMemory };

    fn from(_e: OutOfMemory) -> FrameFault {
        FrameFault::OutOfMemory
    }
}
