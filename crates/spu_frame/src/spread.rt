//! The depths with which walks come to the places of a function.

ghost use Rattle.std.specs.Prelude.{◌≡◌, ◌+◌, ◌^◌, ◌<◌, ◌≤◌, ℕ, ℤ, suc, [], length, replicate, true, false, IfSome, IfNone, IfOk, slice_set};
ghost use Rattle.spu_word.specs.Lists.{stands_on, without};
ghost use Rattle.spu_lift.specs.Places.{taken_places};
ghost use Rattle.std.specs.List.{Contains};
ghost use Rattle.spu_lift.specs.WellFormed.{IsWellFormed};
ghost use Rattle.spu_frame.specs.Walks.{GoesOn, Branches};
ghost use Rattle.spu_frame.specs.Functions.{code_of};
ghost use Rattle.spu_frame.specs.Surveys.{AreKnown, AreMet};
ghost use Rattle.spu_word.specs.Chains.{lists_of, slot_count, list_count};

use crate::met::{Met, amount, behind, met_at};
use crate::places::{code_of, goes_on, instruction, is_pointer_branch, taken_of, target};
use spu_lift::Prog;
use spu_word::{Chains, OutOfMemory};
use std::alloc::Global;

/// The depths that have spread so far over the nodes of a function: its places, and one more behind them, to which each
/// indirect branch on another register than the link leads, and which leads to each taken place.
#[derive(Drop)]
struct Spreading {
    met: Vec<Met>,
    /// The nodes whose depths are still to be handed on stand on its one list.
    waiting: Chains,
    ghost lists: { list_count waiting ≡ 1 },
    ghost slots: { slot_count waiting ≡ length met.items },
}

/// Puts a node on the list, if it isn't there.
fn put_on(waiting: &mut Chains, node: usize)
    requires lists { list_count waiting.old ≡ 1 }
    requires node { node < slot_count waiting.old }
    ensures lists { list_count waiting.new ≡ 1 }
    ensures slots { slot_count waiting.new ≡ slot_count waiting.old }
    ensures on { stands_on (lists_of waiting.new 0) node ≡ true }
    ensures stay { (k : ℕ) → stands_on (lists_of waiting.new 0) k ≡ false → stands_on (lists_of waiting.old 0) k ≡ false }
    ensures longer { length (lists_of waiting.new 0) ≤ length (lists_of waiting.old 0) + 1 }
{
    match waiting.list_of(node) {
        Some(_) => {}
        None => waiting.append(0, node),
    }
}

impl Spreading {
    ghost use Rattle.spu_frame.specs.declared.met.Met.TheVariants.{Never, Once};
    ghost use Rattle.spu_frame.specs.Spreads.{met_of, waiting_of};
    ghost use Rattle.spu_frame.specs.Surveys.{Keeps, met_at, Hands, PointsAt, IsWay, IsWithin, behind_node};

    /// Nodes without depths, none of which waits.
    fn new(alloc: Global, nodes: usize) -> Result<Spreading, OutOfMemory>
        ensures met { IfOk result (λ s. met_of s ≡ replicate nodes Never) }
        ensures waiting { IfOk result (λ s. waiting_of s ≡ []) }
    {
        let mut waiting = Chains::new(alloc, 1)?;
        for _ in 0..nodes {
            waiting.add_slot()?;
        }
        Ok(Spreading {
            met: vec![in alloc; Met::Never; nodes]?,
            waiting,
        })
    }

    /// Sets the depths of a node, which then waits.
    fn set(&mut self, node: usize, met: Met)
        requires { node < length (met_of self.old) }
        ensures met { met_of self.new ≡ slice_set (met_of self.old) node met }
        ensures on { stands_on (waiting_of self.new) node ≡ true }
        ensures stay { (k : ℕ) → stands_on (waiting_of self.new) k ≡ false → stands_on (waiting_of self.old) k ≡ false }
        ensures longer { length (waiting_of self.new) ≤ length (waiting_of self.old) + 1 }
    {
        self.met[node] = met;
        put_on(&mut self.waiting, node);
    }

    /// Hands a depth to a node.
    fn hand(&mut self, node: usize, depth: i64)
        requires { node < length (met_of self.old) }
        ensures { Hands (λ k. k ≡ node) (Once depth) (met_of self.old) (waiting_of self.old) (met_of self.new) (waiting_of self.new) }
    {
        match met_at(&self.met, node) {
            Met::Never => self.set(node, Met::Once(depth)),
            Met::Once(d) => {
                if d != depth {
                    self.set(node, Met::Twice(d, depth));
                }
            }
            Met::Twice(_, _) => {}
        }
    }

    /// Hands depths to a node.
    fn hand_all(&mut self, node: usize, met: Met)
        requires { node < length (met_of self.old) }
        ensures { Hands (λ k. k ≡ node) met (met_of self.old) (waiting_of self.old) (met_of self.new) (waiting_of self.new) }
    {
        match met {
            Met::Never => {}
            Met::Once(d) => self.hand(node, d),
            Met::Twice(d, e) => {
                self.hand(node, d);
                self.hand(node, e);
            }
        }
    }

    /// Takes the first node that waits.
    fn take(&mut self) -> Option<usize>
        ensures met { met_of self.new ≡ met_of self.old }
        ensures none { IfNone result (waiting_of self.old ≡ []) }
        ensures within { IfSome result (λ node. node < length (met_of self.old)) }
        ensures waiting { IfSome result (λ node. waiting_of self.new ≡ without node (waiting_of self.old)) }
        ensures shorter { IfSome result (λ node. length (waiting_of self.new) < length (waiting_of self.old)) }
    {
        let node = self.waiting.first(0)?;
        self.waiting.remove(node);
        Some(node)
    }

    /// Hands depths to the next place, if a walk goes on there.
    fn hand_on(&mut self, p: &Prog, f: u32, i: usize, met: Met)
        requires f { f < length p.now.functions }
        requires i { i < length (code_of p.now f) }
        requires nodes { length (met_of self.old) ≡ suc (length (code_of p.now f)) }
        ensures { Hands (GoesOn p.now f i) met (met_of self.old) (waiting_of self.old) (met_of self.new) (waiting_of self.new) }
    {
        if goes_on(instruction(p, f, i)) && i + 1 < code_of(p, f).len() {
            self.hand_all(i + 1, met);
        }
    }

    /// Hands depths to the target, if there is one.
    fn hand_over(&mut self, p: &Prog, f: u32, i: usize, met: Met)
        requires formed { IsWellFormed p.now }
        requires f { f < length p.now.functions }
        requires i { i < length (code_of p.now f) }
        requires nodes { length (met_of self.old) ≡ suc (length (code_of p.now f)) }
        ensures { Hands (Branches p.now f i) met (met_of self.old) (waiting_of self.old) (met_of self.new) (waiting_of self.new) }
    {
        match target(instruction(p, f, i)) {
            Some(j) => self.hand_all(j as usize, met),
            None => {}
        }
    }

    /// Hands depths to the node behind the places, if the instruction is an indirect branch on another register.
    fn hand_around(&mut self, p: &Prog, f: u32, i: usize, met: Met)
        requires f { f < length p.now.functions }
        requires i { i < length (code_of p.now f) }
        requires nodes { length (met_of self.old) ≡ suc (length (code_of p.now f)) }
        ensures { Hands (PointsAt p.now f i) met (met_of self.old) (waiting_of self.old) (met_of self.new) (waiting_of self.new) }
    {
        if is_pointer_branch(instruction(p, f, i)) {
            self.hand_all(code_of(p, f).len(), met);
        }
    }

    /// Hands the depths of a place to what it leads to.
    fn lead_on(&mut self, p: &Prog, f: u32, known: &[Option<i32>], i: usize)
        requires formed { IsWellFormed p.now }
        requires f { f < length p.now.functions }
        requires i { i < length (code_of p.now f) }
        requires nodes { length (met_of self.old) ≡ suc (length (code_of p.now f)) }
        requires known { length known.now ≡ length (code_of p.now f) }
        requires small { (n : ℤ) → Keeps (met_at (met_of self.old) i) n → IsWithin n (2 ^ 40) }
        ensures { Hands (IsWay p.now f i) (behind_node known.now (met_of self.old) i) (met_of self.old) (waiting_of self.old) (met_of self.new) (waiting_of self.new) }
    {
        let met = behind(met_at(&self.met, i), amount(known, i));
        self.hand_on(p, f, i, met);
        self.hand_over(p, f, i, met);
        self.hand_around(p, f, i, met);
    }

    /// Hands the depths of the node behind the places to the taken places.
    fn lead_to_taken(&mut self, p: &Prog, f: u32)
        requires formed { IsWellFormed p.now }
        requires f { f < length p.now.functions }
        requires nodes { length (met_of self.old) ≡ suc (length (code_of p.now f)) }
        ensures { Hands (Contains (taken_places p.now f)) (met_at (met_of self.old) (length (code_of p.now f))) (met_of self.old) (waiting_of self.old) (met_of self.new) (waiting_of self.new) }
    {
        let met = met_at(&self.met, code_of(p, f).len());
        for j in taken_of(p, f) {
            self.hand_all(*j as usize, met);
        }
    }

    /// Hands the depths of a node to what it leads to.
    fn lead(&mut self, p: &Prog, f: u32, known: &[Option<i32>], node: usize)
        requires formed { IsWellFormed p.now }
        requires f { f < length p.now.functions }
        requires node { node < length (met_of self.old) }
        requires nodes { length (met_of self.old) ≡ suc (length (code_of p.now f)) }
        requires known { length known.now ≡ length (code_of p.now f) }
        requires small { (n : ℤ) → Keeps (met_at (met_of self.old) node) n → IsWithin n (2 ^ 40) }
        ensures { Hands (IsWay p.now f node) (behind_node known.now (met_of self.old) node) (met_of self.old) (waiting_of self.old) (met_of self.new) (waiting_of self.new) }
    {
        if node < code_of(p, f).len() {
            self.lead_on(p, f, known, node);
        } else {
            self.lead_to_taken(p, f);
        }
    }
}

/// The depths with which walks come to the places of a function: two of them where there are more.
pub fn spread(
    alloc: Global,
    p: &Prog,
    f: u32,
    known: &[Option<i32>],
) -> Result<Vec<Met>, OutOfMemory>
    requires formed { IsWellFormed p.now }
    requires f { f < length p.now.functions }
    requires known { AreKnown p.now f known.now }
    ensures { IfOk result (λ met. AreMet p.now f met.items) }
{
    let mut spread = Spreading::new(alloc, code_of(p, f).len() + 1)?;
    spread.hand(0, 0);
    while let Some(node) = spread.take() {
        spread.lead(p, f, known, node);
    }
    Ok(spread.met)
}
