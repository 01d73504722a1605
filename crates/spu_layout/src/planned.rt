//! Laws of layouts by the plans that are made.

ghost use Rattle.std.specs.Prelude.{◌≡◌, ◌∷◌, [], ℕ, map};
ghost use Rattle.spu_lift.specs.declared.program.Prog.{Prog};
ghost use Rattle.spu_lift.specs.WellFormed.{IsWellFormed};
ghost use Rattle.spu_plan.specs.declared.plan.Plan.{Plan};
ghost use Rattle.spu_layout.specs.Layouts.{IsLaid, areas, span};
ghost use Rattle.spu_layout.specs.Placing.{layout_of};
ghost use Rattle.spu_layout.specs.Planned.{IsPlanned};
ghost use Rattle.spu_layout.specs.PlannedSamples.{pair, pair_layout, pair_made, sample_layout, sample_made};
ghost use Rattle.spu_layout.specs.Samples.{sample};

/// The layout of a program by a plan that is made for it, flat or with overlays, has what a hop needs; data, code, buffers
/// and stack lie apart in the local store.
pub fn planned_layouts_are_laid()
    ensures { (p : Prog) (plan : Plan) (limit : ℕ) → IsWellFormed p → IsPlanned p plan limit → IsLaid p limit (layout_of p plan limit) }
{}

/// Plans that are made for small programs, and where functions, stubs and areas lie by them.
pub fn planned_samples_lie()
    ensures sample { IsPlanned sample sample_made 4096 }
    ensures sample_begins { map (λ f. sample_layout.at f 0) (0 ∷ 1 ∷ 2 ∷ 3 ∷ 4 ∷ []) ≡ 176 ∷ 192 ∷ 204 ∷ 772 ∷ 784 ∷ [] }
    ensures sample_areas { areas sample_layout ≡ span 128 160 ∷ span 160 704 ∷ span 768 2816 ∷ span 258016 262144 ∷ [] }
    ensures pair { IsPlanned pair pair_made 16384 }
    ensures pair_begins { map (λ f. pair_layout.at f 0) (0 ∷ 1 ∷ 2 ∷ []) ≡ 144 ∷ 160 ∷ 640 ∷ [] }
    ensures pair_entries { map pair_layout.entry (1 ∷ 2 ∷ []) ≡ 192 ∷ 208 ∷ [] }
    ensures pair_loader { (pair_layout.passage ≡ span 192 488) × (pair_layout.return_entry ≡ 476) × (pair_layout.slots ≡ span 496 512) }
    ensures pair_areas { areas pair_layout ≡ span 128 128 ∷ span 128 608 ∷ span 640 17024 ∷ span 245728 262144 ∷ [] }
{}
