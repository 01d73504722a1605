//! The depths and the frames of a program.

ghost use Rattle.std.specs.Prelude.{◌≡◌, ◌<◌, length, IfOk, IfErr};
ghost use Rattle.spu_lift.specs.WellFormed.{IsWellFormed};
ghost use Rattle.spu_frame.specs.Frames.{AreDepths};
ghost use Rattle.spu_frame.specs.Found.{depth_at, frame_at, function_count, IsRefused};
ghost use Rattle.spu_frame.specs.Flaws.{worse};

use crate::faults::FrameKind;
use crate::frame_fault::FrameFault;
use crate::survey::{Finding, FunctionDepths, survey};
use spu_lift::Prog;
use spu_word::Seq;
use std::alloc::Global;

/// The depth before each place of each function, and the functions' frames.
#[derive(Drop)]
pub struct Depths {
    functions: Seq<FunctionDepths>,
}

impl Depths {
    ghost use Rattle.spu_frame.specs.Found.{depth_at, frame_at, function_count};

    /// The depth before place i of function f, None exactly where no walk reaches it.
    pub fn at(&self, f: u32, i: u32) -> Option<u32>
        ensures { result ≡ depth_at self.now f i }
    {
        match self.functions.get(f as usize) {
            Some(g) => match g.depths.get(i as usize) {
                Some(depth) => *depth,
                None => None,
            },
            None => None,
        }
    }

    /// The frame of function f: the greatest depth before or after a place that a walk reaches.
    pub fn frame(&self, f: u32) -> u32
        requires { f < function_count self.now }
        ensures { result ≡ frame_at self.now f }
    {
        self.functions.as_slice()[f as usize].frame
    }
}

/// A fault, at a place of a function.
#[derive(Clone, Copy)]
pub struct Flaw {
    pub kind: FrameKind,
    pub function: u32,
    pub place: u32,
}

/// The worse of the worst flaw so far and one of a later function.
fn worse(worst: Option<Flaw>, next: Flaw) -> Option<Flaw>
    ensures { result ≡ worse worst next }
{
    match worst {
        Some(flaw) => {
            if next.kind.number() < flaw.kind.number() {
                Some(next)
            } else {
                Some(flaw)
            }
        }
        None => Some(next),
    }
}

/// The depths and the frames of a program; or, exactly where they aren't good, the fault with the least number, at its
/// first place by function and index. Time and memory are linear in the program's places.
pub fn frames(alloc: Global, p: &Prog) -> Result<Depths, FrameFault>
    requires { IsWellFormed p.now }
    ensures depths { IfOk result (λ d. AreDepths p.now (depth_at d) (frame_at d)) }
    ensures count { IfOk result (λ d. function_count d ≡ length p.now.functions) }
    ensures refused { IfErr result (IsRefused p.now) }
{
    let mut functions = Seq::new(alloc);
    let mut worst = None;
    for f in 0..p.functions.len() as u32 {
        match survey(alloc, p, f)? {
            Finding::Good(depths) => functions.push(depths)?,
            Finding::Faulty(kind, place) => {
                worst = worse(
                    worst,
                    Flaw {
                        kind,
                        function: f,
                        place: place as u32,
                    },
                );
            }
        }
    }
    match worst {
        Some(flaw) => Err(FrameFault::Fault {
            kind: flaw.kind,
            function: flaw.function,
            place: flaw.place,
        }),
        None => Ok(Depths { functions }),
    }
}
