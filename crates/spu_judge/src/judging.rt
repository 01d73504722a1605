//! The judgement of a program.

ghost use Rattle.std.specs.Prelude.{◌≡◌, ◌<◌, ◌≤◌, ℕ, length, Some, IfOk, IfErr};
ghost use Rattle.spu_word.specs.declared.limits.TheConstants.{MAX_STACK_LIMIT};
ghost use Rattle.spu_lift.specs.WellFormed.{IsWellFormed};
ghost use Rattle.spu_frame.specs.Frames.{AreDepths};
ghost use Rattle.spu_frame.specs.Found.{depth_at, frame_at, function_count, IsRefused as IsFrameRefused};
ghost use Rattle.spu_graph.specs.Paths.{IsRecursive};
ghost use Rattle.spu_graph.specs.Known.{AreNeeds, need_of};
ghost use Rattle.spu_judge.specs.Answers.{IsJudgement, IsRefused};
ghost use Rattle.spu_judge.specs.Edges.{IsEdge};
ghost use Rattle.spu_judge.specs.Building.{IsGraphRefused};

use crate::building::{graph_of, pointer_node};
use crate::outcome::{JudgeFault, Judged};
use crate::telling::{name_of, names_of};
use spu_frame::{Depths, FrameFault, frames};
use spu_graph::{GraphFault, Needs};
use spu_lift::Prog;
use spu_word::OutOfMemory;
use spu_word::limits::WORD_SIZE;
use std::alloc::Global;

/// What is told of a fault of the frames.
fn frame_refusal(alloc: Global, p: &Prog, fault: FrameFault) -> JudgeFault
    requires formed { IsWellFormed p.now }
    requires fault { IsFrameRefused p.now fault }
    ensures { (limit : ℕ) → IsRefused p.now limit result }
{
    match fault {
        FrameFault::Fault {
            kind,
            function,
            place,
        } => match name_of(alloc, p, function) {
            Ok(name) => JudgeFault::Frame {
                kind,
                name,
                offset: WORD_SIZE * place,
            },
            Err(OutOfMemory) => JudgeFault::OutOfMemory,
        },
        FrameFault::OutOfMemory => JudgeFault::OutOfMemory,
    }
}

/// The depths and frames of a program.
fn depths_of(alloc: Global, p: &Prog) -> Result<Depths, JudgeFault>
    requires { IsWellFormed p.now }
    ensures depths { IfOk result (λ d. AreDepths p.now (depth_at d) (frame_at d)) }
    ensures count { IfOk result (λ d. function_count d ≡ length p.now.functions) }
    ensures refused { IfErr result (λ e. (limit : ℕ) → IsRefused p.now limit e) }
{
    match frames(alloc, p) {
        Ok(depths) => Ok(depths),
        Err(fault) => Err(frame_refusal(alloc, p, fault)),
    }
}

/// What is told of a graph that has no needs.
fn graph_refusal(alloc: Global, p: &Prog, depths: &Depths, fault: GraphFault) -> JudgeFault
    requires depths { AreDepths p.now (depth_at depths.now) (frame_at depths.now) }
    requires fault { IsGraphRefused p.now fault }
    ensures { (limit : ℕ) → IsRefused p.now limit result }
{
    match fault {
        GraphFault::Recursion(members) => match names_of(alloc, p, members.as_slice()) {
            Ok(names) => JudgeFault::Recursion(names),
            Err(OutOfMemory) => JudgeFault::OutOfMemory,
        },
        GraphFault::OutOfMemory => JudgeFault::OutOfMemory,
    }
}

/// The stack that each function of a program needs.
fn needs_of(alloc: Global, p: &Prog, depths: &Depths) -> Result<Needs, JudgeFault>
    requires formed { IsWellFormed p.now }
    requires depths { AreDepths p.now (depth_at depths.now) (frame_at depths.now) }
    requires count { function_count depths.now ≡ length p.now.functions }
    ensures needs { IfOk result (λ n. AreNeeds (IsEdge p.now) (frame_at depths.now) p.now.entry (need_of n)) }
    ensures acyclic { IfOk result (λ n. IsRecursive (IsEdge p.now) p.now.entry → ⊥) }
    ensures refused { IfErr result (λ e. (limit : ℕ) → IsRefused p.now limit e) }
{
    let graph = graph_of(alloc, p, depths)?;
    match graph.needs(alloc, p.entry) {
        Ok(mut needs) => {
            needs.keep_first(pointer_node(p));
            Ok(needs)
        }
        Err(fault) => Err(graph_refusal(alloc, p, depths, fault)),
    }
}

/// What the entry of a program needs.
fn entry_need(p: &Prog, depths: &Depths, needs: &Needs) -> u64
    requires { AreNeeds (IsEdge p.now) (frame_at depths.now) p.now.entry (need_of needs.now) }
    ensures { need_of needs.now p.now.entry ≡ Some result }
{
    match needs.need(p.entry) {
        Some(need) => need,
        None => unreachable!(),
    }
}

/// Judges a program, for a stack of so many bytes: its depths, frames and needs, or, exactly where one holds, the least
/// of L14 to L19. Time and memory are linear in its places and taken functions.
pub fn judge_program(alloc: Global, prog: Prog, limit: u32) -> Result<Judged, JudgeFault>
    requires formed { IsWellFormed prog }
    requires limit { limit ≤ MAX_STACK_LIMIT }
    ensures judgement { IfOk result (IsJudgement prog limit) }
    ensures refused { IfErr result (IsRefused prog limit) }
{
    let depths = depths_of(alloc, &prog)?;
    let needs = needs_of(alloc, &prog, &depths)?;
    let need = entry_need(&prog, &depths, &needs);
    if need > u64::from(limit) {
        return Err(JudgeFault::StackLimit { need, limit });
    }
    Ok(Judged {
        prog,
        depths,
        needs,
    })
}
