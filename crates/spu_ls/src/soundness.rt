//! What every state of a machine keeps.

ghost use Rattle.std.specs.Prelude.{◌≡◌, ℕ, List, Some, None, false};
ghost use Rattle.spu_isa.specs.declared.instruction.Inst.{Inst};
ghost use Rattle.spu_isa.specs.Decoding.{decoded};
ghost use Rattle.spu_isa.specs.Table.{row_of};
ghost use Rattle.spu_ls.specs.Stores.{fetch};
ghost use Rattle.spu_word.specs.declared.load.Inputs.{Inputs};
ghost use Rattle.spu_elf.specs.declared.executables.Exec.{Exec};
ghost use Rattle.spu_ls.specs.Loading.{load_fault};
ghost use Rattle.spu_ls.specs.Machine.{State, step, steps};
ghost use Rattle.spu_ls.specs.Sound.{IsOverBytes, IsSound};
ghost use Rattle.spu_ls.specs.Start.{start};

/// A start over bytes is a sound state.
pub fn start_is_sound()
    ensures { (x : Exec) (file : List ℕ) (i : Inputs) → IsOverBytes x file i → load_fault x file i ≡ None → IsSound (start x file i) }
{}

/// A step keeps a state sound, and so do steps.
pub fn step_is_sound()
    ensures one { (s : State) → IsSound s → IsSound (step s) }
    ensures all { (n : ℕ) (s : State) → IsSound s → IsSound (steps n s) }
{}

/// A step writes no register but rt of its instruction, and none where the table says that it writes none, or where the
/// word is no instruction.
pub fn step_leaves_registers()
    ensures other { (s : State) (x : Inst) (r : ℕ) → decoded (fetch s.store s.pc) ≡ Some x → (r ≡ x.rt → (row_of x.op).writes ≡ false) → (step s).regs r ≡ s.regs r }
    ensures none { (s : State) (r : ℕ) → decoded (fetch s.store s.pc) ≡ None → (step s).regs r ≡ s.regs r }
{}
