//! Laws of layouts.

ghost use Rattle.std.specs.Prelude.{◌≡◌, ◌+◌, ◌∷◌, [], ℕ, map};
ghost use Rattle.spu_word.specs.declared.limits.TheConstants.{WORD_SIZE};
ghost use Rattle.spu_lift.specs.declared.program.Prog.{Prog};
ghost use Rattle.spu_lift.specs.WellFormed.{IsWellFormed};
ghost use Rattle.spu_plan.specs.declared.plan.Plan.{Plan};
ghost use Rattle.spu_layout.specs.Layouts.{IsLaid, IsFlat, areas, span};
ghost use Rattle.spu_layout.specs.Placing.{at, FitsFlat, layout_of};
ghost use Rattle.spu_layout.specs.Samples.{flat_sample, overlay_sample};

/// Places of a function stand one after another.
#[tactic(auto, using(crate::proofs::Steps::next_place))]
pub fn places_are_words()
    ensures { (p : Prog) (plan : Plan) (f i : ℕ) → at p plan f (i + 1) ≡ at p plan f i + WORD_SIZE }
{}

/// The layout of a program that fits with the flat plan has what a hop needs, and is flat.
pub fn flat_layouts_are_laid()
    ensures laid { (p : Prog) (plan : Plan) (limit : ℕ) → IsWellFormed p → FitsFlat p plan limit → IsLaid p limit (layout_of p plan limit) }
    ensures flat { (p : Prog) (plan : Plan) (limit : ℕ) → FitsFlat p plan limit → IsFlat (layout_of p plan limit) }
{}

/// Where the functions and areas of a small program with data lie in its flat layout.
pub fn flat_sample_lies()
    ensures begins { map (λ f. flat_sample.at f 0) (0 ∷ 1 ∷ 2 ∷ 3 ∷ 4 ∷ []) ≡ 176 ∷ 192 ∷ 204 ∷ 228 ∷ 240 ∷ [] }
    ensures places { flat_sample.at 2 1 ≡ 208 }
    ensures areas { areas flat_sample ≡ span 128 160 ∷ span 160 256 ∷ span 256 256 ∷ span 258016 262144 ∷ [] }
{}

/// Where they lie with two regions, each in a buffer of its own: the functions, the stubs through which labels lead, where
/// links lead back, and the areas with what the loader has in them.
pub fn overlay_sample_lies()
    ensures begins { map (λ f. overlay_sample.at f 0) (0 ∷ 1 ∷ 2 ∷ 3 ∷ 4 ∷ []) ≡ 176 ∷ 192 ∷ 204 ∷ 772 ∷ 896 ∷ [] }
    ensures regions { map overlay_sample.region (0 ∷ 1 ∷ 2 ∷ 3 ∷ 4 ∷ []) ≡ 0 ∷ 0 ∷ 0 ∷ 1 ∷ 2 ∷ [] }
    ensures stubs { map overlay_sample.entry (1 ∷ 2 ∷ 3 ∷ 4 ∷ []) ≡ 224 ∷ 240 ∷ 256 ∷ 272 ∷ [] }
    ensures returns { overlay_sample.return_entry ≡ 540 }
    ensures passage { overlay_sample.passage ≡ span 224 552 }
    ensures slots { overlay_sample.slots ≡ span 560 592 }
    ensures areas { areas overlay_sample ≡ span 128 160 ∷ span 160 704 ∷ span 768 1024 ∷ span 258016 262144 ∷ [] }
{}
