//! The laws that join words and instructions.

ghost use Rattle.std.specs.Prelude.{◌≡◌, ◌↔◌, ℕ, Some};
ghost use Rattle.spu_isa.specs.declared.instruction.Inst.{Inst};
ghost use Rattle.spu_isa.specs.Table.{Decodes};
ghost use Rattle.spu_isa.specs.Decoding.{decoded};

/// What a word is decoded as is what the table says that it is.
pub fn decoding_follows_the_table()
    ensures { (w : ℕ) (x : Inst) → (decoded w ≡ Some x) ↔ Decodes w x }
{}

/// No word is two instructions.
pub fn one_instruction()
    ensures { (w : ℕ) (x y : Inst) → Decodes w x → Decodes w y → x ≡ y }
{}

/// No instruction has two words.
pub fn one_word()
    ensures { (v w : ℕ) (x : Inst) → Decodes v x → Decodes w x → v ≡ w }
{}
