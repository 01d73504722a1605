//! Laws of programs.

ghost use Rattle.spu_word.specs.declared.limits.TheConstants.{MAX_OBJECTS};
ghost use Rattle.spu_elf.specs.declared.objects.Object.{Object};
ghost use Rattle.spu_lift.specs.declared.program.Prog.{Prog};
ghost use Rattle.spu_lift.specs.WellFormed.{IsWellFormed};
ghost use Rattle.std.specs.Prelude.{◌≡◌, ◌≤◌, ◌⊎◌, length, List, ℕ, All};
ghost use Rattle.spu_elf.specs.WellFormed.{IsWellFormed as IsWellFormedObject};
ghost use Rattle.spu_lift.specs.declared.fault.LiftFault.{LiftFault};
ghost use Rattle.spu_lift.specs.LiftFaults.{Lifted, IsLeastFault};

/// Objects that stand for a program have no fault.
pub fn not_lifted_and_faulty()
    ensures { (os : List Object) (entry : List ℕ) (p : Prog) (fault : LiftFault) → Lifted os entry p → IsLeastFault os entry fault → ⊥ }
{}

/// Well-formed objects have at most one least fault.
pub fn one_fault()
    ensures { (os : List Object) (entry : List ℕ) (fault other : LiftFault) → All IsWellFormedObject os → IsLeastFault os entry fault → IsLeastFault os entry other → fault ≡ other }
{}

/// Well-formed objects stand for at most one program.
pub fn one_program()
    ensures { (os : List Object) (entry : List ℕ) (p q : Prog) → All IsWellFormedObject os → Lifted os entry p → Lifted os entry q → p ≡ q }
{}

/// A program that at most 64 well-formed objects stand for is well formed.
pub fn lifted_programs_are_formed()
    ensures { (os : List Object) (entry : List ℕ) (p : Prog) → length os ≤ MAX_OBJECTS → All IsWellFormedObject os → Lifted os entry p → IsWellFormed p }
{}

/// At most 64 well-formed objects stand for a program, or have a least fault.
pub fn lifted_or_refused()
    ensures { (os : List Object) (entry : List ℕ) → length os ≤ MAX_OBJECTS → All IsWellFormedObject os → ((p : Prog) × Lifted os entry p) ⊎ ((fault : LiftFault) × IsLeastFault os entry fault) }
{}
