//! What judging a program answers.

ghost use Rattle.std.specs.Prelude.{◌≡◌};
ghost use Rattle.spu_judge.specs.declared.outcome.JudgeFault.TheVariants as faults;

use spu_frame::{Depths, FrameKind};
use spu_graph::Needs;
use spu_lift::Prog;
use spu_word::{Name, OutOfMemory, Seq};

/// A program with the depths and frames of its functions, and the stack that each needs which a path from the entry
/// reaches.
#[derive(Drop)]
pub struct Judged {
    pub prog: Prog,
    pub depths: Depths,
    pub needs: Needs,
}

/// Why a program isn't judged.
#[derive(Drop)]
pub enum JudgeFault {
    /// L14 to L17: what is wrong with the frame of a function, by its name, at an offset in bytes from its start.
    Frame {
        kind: FrameKind,
        name: Name,
        offset: u32,
    },
    /// L18: the names of the functions of a cycle. Each calls or jumps to the next one, and the last to the first, to
    /// which calls and jumps lead from the entry.
    Recursion(Seq<Name>),
    /// L19: how many bytes of stack the entry needs, and how many there are.
    StackLimit {
        need: u64,
        limit: u32,
    },
    /// Memory ran out.
    OutOfMemory,
}

impl From<OutOfMemory> for JudgeFault {
    ghost from_gives = { λ _ e. e ≡ faults.OutOfMemory };

    fn from(_e: OutOfMemory) -> JudgeFault {
        JudgeFault::OutOfMemory
    }
}
