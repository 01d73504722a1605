//! What follows from the definitions of operands.

ghost use Rattle.std.specs.Prelude.{◌≡◌, ℕ, true, List, Option, Ok};
ghost use Rattle.std.specs.List.{AllByRecursion};
ghost use Rattle.spu_isa.specs.declared.operation.Op.{Op};
ghost use Rattle.spu_isa.specs.Table.{InRange};
ghost use Rattle.spu_reloc.specs.declared.field.RelocKind.{RelocKind};
ghost use Rattle.spu_reloc.specs.Fields.{fits_on, kind_on, number_of};
ghost use Rattle.spu_text.specs.Lexemes.{Lexeme};
ghost use Rattle.spu_asm.specs.Operands.{Coded, Target, coded};
ghost use Rattle.spu_asm.specs.Statements.{Relocation, relocations_by};

/// Operands whose numbers lie in their ranges make an instruction that a word can have.
pub fn operands_in_range()
    ensures { (o : Op) (os : List (List Lexeme)) (c : Coded) → coded o os ≡ Ok c → InRange c.inst }
{}

/// A relocation that an instruction makes may stand on it.
#[tactic(auto, using(crate::proofs::OperandLemmas::relocations_fit_lem))]
pub fn relocations_fit()
    ensures { (o : Op) (t : Option Target) → AllByRecursion (λ (r : Relocation). (k : RelocKind) × (number_of k ≡ r.number) × (fits_on k o ≡ true)) (relocations_by (kind_on o) t) }
{}
