//! Laws of the symbolic machine.

ghost use Rattle.std.specs.Prelude.{◌≡◌, ◌+◌, ◌-◌, ◌%◌, ◌≤◌, ◌⊎◌, ◌∷◌, [], ℕ, List, Some, length, true};
ghost use Rattle.spu_word.specs.declared.limits.TheConstants.{MAX_STACK_LIMIT, QUAD_SIZE, STACK_TOP};
ghost use Rattle.spu_word.specs.declared.load.Inputs.{Inputs};
ghost use Rattle.spu_lift.specs.declared.program.Prog.{Prog};
ghost use Rattle.spu_lift.specs.declared.program.SymInst.{SymInst};
ghost use Rattle.spu_lift.specs.Places.{instruction_at, link_register, stack_pointer};
ghost use Rattle.spu_lift.specs.WellFormed.{IsWellFormed};
ghost use Rattle.spu_judge.specs.declared.outcome.Judged.{Judged};
ghost use Rattle.spu_judge.specs.Answers.{IsJudgement};
ghost use Rattle.spu_ideal.specs.Bytes.{known_word, link_of};
ghost use Rattle.spu_ideal.specs.State.{Sym};
ghost use Rattle.spu_ideal.specs.Machine.{calls, run, start, step};
ghost use Rattle.spu_ideal.specs.States.{IsOf, IsJudged};
ghost use Rattle.spu_ideal.specs.Accesses.{is_allowed};
ghost use Rattle.spu_ideal.specs.Loading.{IsLoadable};
ghost use Rattle.spu_ideal.specs.Promises.{AreWaiting, IsHigh, IsReached};
ghost use Rattle.spu_ideal.specs.Samples.{tours, tour_frames};

/// A call leaves the link of the next place in the link register.
#[tactic(auto, using(crate::proofs::Calls::link_left))]
pub fn call_leaves_link()
    ensures { (p : Prog) (g : ℕ) (s : Sym) (y : SymInst) → instruction_at p g 0 ≡ Some y → (calls p g s).regs link_register ≡ link_of s.f (s.i + 1) }
{}

/// A call begins at the first word of the function that it names.
#[tactic(auto, using(crate::proofs::Calls::call_enters))]
pub fn call_enters_function()
    ensures { (p : Prog) (g : ℕ) (s : Sym) (y : SymInst) → instruction_at p g 0 ≡ Some y → ((calls p g s).f ≡ g) × ((calls p g s).i ≡ 0) }
{}

/// A run begins in a state of its program.
pub fn start_is_of_program()
    ensures { (p : Prog) (limit : ℕ) (inputs : Inputs) → IsWellFormed p → IsOf p (start p limit inputs) }
{}

/// Each step stays in states of the program.
pub fn step_stays_of_program()
    ensures { (p : Prog) (frames : ℕ → ℕ) (need : ℕ) → IsJudged p frames need → (s : Sym) → IsOf p s → IsOf p (step p frames s) }
{}

/// Each state of a run is one of its program.
pub fn run_stays_of_program()
    ensures { (p : Prog) (frames : ℕ → ℕ) (need : ℕ) → IsJudged p frames need → (limit : ℕ) (inputs : Inputs) (n : ℕ) → IsOf p (run p frames limit inputs n) }
{}

/// The stack pointer is a number in each state of a run, and never falls by more than the need.
pub fn stack_pointer_stays_high()
    ensures { (p : Prog) (frames : ℕ → ℕ) (need : ℕ) → IsJudged p frames need → (limit : ℕ) (inputs : Inputs) (n : ℕ)
        → (w : ℕ) × (known_word ((run p frames limit inputs n).regs stack_pointer) 0 ≡ Some w) × (STACK_TOP - need ≤ w) }
{}

/// There are never more open calls than functions.
pub fn open_calls_are_few()
    ensures { (p : Prog) (frames : ℕ → ℕ) (need : ℕ) → IsJudged p frames need → (s : Sym) → IsOf p s → length s.calls ≤ length p.functions }
{}

/// In each state of a run with a stack that is long enough, what is loaded and stored lies in the data and in the stack
/// area, and so do the transfers that wait.
pub fn run_is_high()
    ensures { (p : Prog) (frames : ℕ → ℕ) (need : ℕ) → IsJudged p frames need → (limit : ℕ) → need ≤ limit → (inputs : Inputs) (n : ℕ) → IsHigh p frames limit (run p frames limit inputs n) }
{}

/// A program with an instruction of each kind is judged: one that has a frame, a call, a pointer call, and data with a label.
pub fn tours_is_judged()
    ensures { IsJudged tours tour_frames 32 }
{}

/// Each step keeps the rules of the queue, where what may be loaded and stored lies in the data and in the stack area.
pub fn step_keeps_waiting()
    ensures { (p : Prog) (frames : ℕ → ℕ) (limit : ℕ) (s : Sym) → ((a size : ℕ) → is_allowed p frames s a size ≡ true → IsReached p limit a size)
        → AreWaiting p limit s.areas s.queue → AreWaiting p limit (step p frames s).areas (step p frames s).queue }
{}

/// A program that is judged for a limit can be loaded, with its depths and a stack of so many bytes, where its data end below the stack.
pub fn judgements_are_loadable()
    ensures { (p : Prog) (limit : ℕ) (j : Judged) → IsJudgement p limit j → limit % QUAD_SIZE ≡ 0 → limit ≤ MAX_STACK_LIMIT → p.data_end ≤ STACK_TOP - limit → IsLoadable j.prog j.depths limit }
{}
