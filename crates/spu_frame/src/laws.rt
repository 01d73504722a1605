//! Laws of walks and frames.

ghost use Rattle.std.specs.Prelude.{◌≡◌, ℕ, ℤ};
ghost use Rattle.spu_lift.specs.declared.program.Prog.{Prog};
ghost use Rattle.spu_frame.specs.Walks.{Adds};
ghost use Rattle.spu_frame.specs.Frames.{AreGood};
ghost use Rattle.spu_frame.specs.Faults.{IsFaulty};
ghost use Rattle.spu_frame.specs.declared.faults.FrameKind.{FrameKind};

/// A place adds one amount to the depth.
pub fn place_adds_one()
    ensures { (p : Prog) (f i : ℕ) (c d : ℤ) → Adds p f i c → Adds p f i d → c ≡ d }
{}

/// Good frames have no fault.
#[tactic(auto, using(crate::proofs::Additions::good_faultless))]
pub fn good_frames_have_no_fault()
    ensures { (p : Prog) → AreGood p → (kind : FrameKind) (f i : ℕ) → IsFaulty kind p f i → ⊥ }
{}
