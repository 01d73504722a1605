//! Moves of symbolic bytes, tried.

ghost use Rattle.std.specs.Prelude.{◌≡◌, ◌+◌, ◌-◌, ◌%◌, ◌⊎◌, ◌∷◌, [], ℕ, List, None, pos, nat_lt, slice_index, true, if◌then◌else◌};
ghost use Rattle.spu_isa.specs.declared.operation.Op.{Op};
ghost use Rattle.spu_exec.specs.Moves.{moved_byte};
ghost use Rattle.spu_isa.specs.declared.operation.Op.TheVariants as op;
ghost use Rattle.spu_lift.specs.declared.program.Label.{Label};
ghost use Rattle.spu_lift.specs.declared.program.Label.TheVariants.{Link};
ghost use Rattle.spu_lift.specs.declared.symbolic.SymByte.{SymByte};
ghost use Rattle.spu_lift.specs.declared.symbolic.SymByte.TheVariants.{Num, Part, Unknown};
ghost use Rattle.spu_ideal.specs.Bytes.{sixteen, link_of, unknown_quad};
ghost use Rattle.spu_ideal.specs.Results.{symbolic_value, label_value};
ghost use Rattle.spu_ideal.specs.Moving.{is_move, of_op, words};

/// A link that is turned and shifted by bytes keeps its parts, by a count that is a number alone.
pub fn links_are_shifted()
    ensures turned { (f i : ℕ) (b c t : List SymByte) → symbolic_value (of_op op.Rotqbyi (pos 4)) (link_of f i) b c t ≡ sixteen (λ k. Part (Link f i) ((k + 4) % 16)) }
    ensures by_word { (f i : ℕ) (c t : List SymByte) → symbolic_value (of_op op.Rotqby (pos 0)) (link_of f i) (words 20 0 0 0) c t ≡ sixteen (λ k. Part (Link f i) ((k + 4) % 16)) }
    ensures left { (f i : ℕ) (b c t : List SymByte) → symbolic_value (of_op op.Shlqbyi (pos 4)) (link_of f i) b c t ≡ sixteen (λ k. if nat_lt k 12 then Part (Link f i) (k + 4) else Num 0) }
    ensures right { (f i : ℕ) (c t : List SymByte) → symbolic_value (of_op op.Rotqmby (pos 0)) (link_of f i) (words 28 0 0 0) c t ≡ sixteen (λ k. if nat_lt k 4 then Num 0 else Part (Link f i) (k - 4)) }
    ensures unknown { (f i : ℕ) (c t : List SymByte) → symbolic_value (of_op op.Rotqby (pos 0)) (link_of f i) (link_of f i) c t ≡ unknown_quad }
{}

/// Bytes are chosen by numbers, and the or with zeros or with itself keeps a link.
pub fn links_are_chosen()
    ensures shuffled { (f i : ℕ) (t : List SymByte) → symbolic_value (of_op op.Shufb (pos 0)) (words 1 2 3 4) (link_of f i) (words 0x10111213 0x03808080 0xc0c0c0c0 0xe0e0e0e0) t ≡ sixteen (λ k. if nat_lt k 4 then Part (Link f i) k else (if nat_lt k 5 then Num 1 else (if nat_lt k 8 then Num 0 else (if nat_lt k 12 then Num 255 else Num 128)))) }
    ensures selected { (f i : ℕ) (t : List SymByte) → symbolic_value (of_op op.Selb (pos 0)) (words 0 0 0 0) (link_of f i) (words 0xffffffff 0 0 0x01010101) t ≡ sixteen (λ k. if nat_lt k 4 then Part (Link f i) k else (if nat_lt k 12 then Num 0 else Unknown)) }
    ensures kept { (f i : ℕ) (b c t : List SymByte) → symbolic_value (of_op op.Ori (pos 0)) (link_of f i) b c t ≡ link_of f i }
    ensures itself { (c t : List SymByte) → symbolic_value (of_op op.Or (pos 0)) (link_of 1 2) (link_of 1 2) c t ≡ link_of 1 2 }
    ensures by_halfwords { (f i : ℕ) (b c t : List SymByte) → symbolic_value (of_op op.Orhi (pos 1)) (link_of f i) b c t ≡ sixteen (λ k. if nat_lt (k % 2) 1 then Part (Link f i) k else Unknown) }
    ensures low_half { (f i : ℕ) (a b c : List SymByte) → symbolic_value (of_op op.Iohl (pos 1)) a b c (link_of f i) ≡ sixteen (λ k. if nat_lt (k % 4) 3 then Part (Link f i) k else Unknown) }
    ensures spoilt { (f i : ℕ) (b c t : List SymByte) → symbolic_value (of_op op.Orbi (pos 1)) (link_of f i) b c t ≡ unknown_quad }
{}

/// `ila` of a label gives its four parts in each word, and so do `ilhu` and `iohl` together.
#[tactic(auto, using(crate::proofs::Moved::label_whole, crate::proofs::Moved::label_halves))]
pub fn labels_are_built()
    ensures whole { (l : Label) (a b c t : List SymByte) → label_value (of_op op.Ila (pos 0)) l a b c t ≡ sixteen (λ k. Part l (k % 4)) }
    ensures halves { (l : Label) (a b c t : List SymByte) → label_value (of_op op.Iohl (pos 0)) l a b c (label_value (of_op op.Ilhu (pos 0)) l a b c t) ≡ sixteen (λ k. Part l (k % 4)) }
{}

/// A move of bytes that are numbers gives a byte in each place; `selb` does where its mask byte is 0 or 255.
pub fn moves_move()
    ensures { (o : Op) → is_move o ≡ true → (n : ℕ) (a b c t : List ℕ) (k : ℕ) → (o ≡ op.Selb → (slice_index c k ≡ 0) ⊎ (slice_index c k ≡ 255)) → moved_byte o n a b c t k ≡ None → ⊥ }
{}
