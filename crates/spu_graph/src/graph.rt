//! A call graph: functions with their frames, and edges from callers to callees.

ghost use Rattle.std.specs.Prelude.{◌≡◌, ◌^◌, ◌+◌, ◌<◌, ◌≤◌, ℕ, List, [], ◌∷◌, ◌++◌, length, true, false, ◌==◌, if◌then◌else◌, IfSome, IfOk, OnOk, OnErr, slice_get, slice_index, vec_len};
ghost use Rattle.std.specs.List.{All};
ghost use Rattle.spu_word.specs.declared.limits.TheConstants.{MAX_STACK_LIMIT};
ghost use Rattle.spu_word.specs.Lists.{stands_on};
ghost use Rattle.spu_word.specs.Chains.{lists_of, slot_count, list_count};
ghost use Rattle.spu_graph.specs.Edges.{IsGraph, leaving, entering, rest_of};

use spu_word::{Chains, OutOfMemory, Seq};
use std::alloc::Global;

/// An edge from a function to one that it calls, or that it jumps to.
#[derive(Clone, Copy, Debug)]
pub struct Edge {
    pub from: u32,
    pub to: u32,
    pub call: bool,
}

/// Functions with their frames, and edges between them.
#[derive(Drop)]
pub struct Graph {
    frames: Vec<u32>,
    edges: Vec<Edge>,
    /// The edges on their callers' lists, and on their callees' lists, by their numbers.
    calls: Chains,
    callers: Chains,
    /// Whether the slot of the next edge stands ready in `calls`.
    ready: bool,
    ghost few: { length frames.items < 2 ^ 32 },
    ghost low: { All (λ n. n ≤ MAX_STACK_LIMIT) frames.items },
    ghost calls_lists: { list_count calls ≡ length frames.items },
    ghost callers_lists: { list_count callers ≡ length frames.items },
    ghost calls_slots: { slot_count calls ≡ (if ready then length edges.items + 1 else length edges.items) },
    ghost callers_slots: { slot_count callers ≡ length edges.items },
    ghost graph: { IsGraph (length frames.items) edges.items (lists_of calls) (lists_of callers) },
}

impl Graph {
    ghost use Rattle.spu_graph.specs.Graphs.{frames_of, edges_of, frame_in};
    ghost use Rattle.spu_graph.specs.Peeling.{taken_by, IsOpen, IsClosed};

    /// The graph of functions with these frames, in bytes, and no edge yet.
    pub fn new(alloc: Global, frames: &Seq<u32>) -> Result<Graph, OutOfMemory>
        requires few { length frames.now < 2 ^ 32 }
        requires low { All (λ n. n ≤ MAX_STACK_LIMIT) frames.now }
        ensures frames { IfOk result (λ g. frames_of g ≡ frames.now) }
        ensures edges { IfOk result (λ g. edges_of g ≡ []) }
    {
        let count = frames.len() as u32;
        let copy = Vec::from_slice(alloc, frames.as_slice())?;
        let calls = Chains::new(alloc, count)?;
        let callers = Chains::new(alloc, count)?;
        Ok(Graph {
            frames: copy,
            edges: Vec::new(alloc),
            calls,
            callers,
            ready: false,
        })
    }

    /// Sees to a slot in `calls` for the next edge.
    fn make_ready(&mut self) -> Result<(), OutOfMemory>
        ensures ready { OnOk result (self.new.ready ≡ true) }
        ensures edges { edges_of self.new ≡ edges_of self.old }
        ensures frames { frames_of self.new ≡ frames_of self.old }
    {
        if !self.ready {
            self.calls.add_slot()?;
            self.ready = true;
        }
        Ok(())
    }

    /// Adds an edge: a call, which keeps the caller's frame, or a jump, which doesn't. After a refusal
    /// the graph is as it was.
    pub fn add_edge(&mut self, from: u32, to: u32, call: bool) -> Result<(), OutOfMemory>
        requires from { from < length (frames_of self.old) }
        requires to { to < length (frames_of self.old) }
        ensures ok { OnOk result (edges_of self.new ≡ edges_of self.old ++ record { from = from; to = to; call = call } ∷ []) }
        ensures err { OnErr result (edges_of self.new ≡ edges_of self.old) }
        ensures frames { frames_of self.new ≡ frames_of self.old }
    {
        let slot = self.edges.len();
        self.make_ready()?;
        self.edges.push(Edge { from, to, call })?;
        if self.callers.add_slot().is_err() {
            let _ = self.edges.pop();
            return Err(OutOfMemory);
        }
        self.ready = false;
        self.calls.append(from, slot);
        self.callers.append(to, slot);
        Ok(())
    }

    /// The first edge that leaves a function.
    pub(crate) fn first_call(&self, f: u32) -> Option<usize>
        requires { f < length (frames_of self.now) }
        ensures all { rest_of (leaving (edges_of self.now) f) result ≡ leaving (edges_of self.now) f }
        ensures on { IfSome result (λ e. stands_on (leaving (edges_of self.now) f) e ≡ true) }
    {
        self.calls.first(f)
    }

    /// The edge behind one that leaves a function.
    pub(crate) fn next_call(&self, e: usize) -> Option<usize>
        requires { (f : ℕ) × (stands_on (leaving (edges_of self.now) f) e ≡ true) }
        ensures rest { (f : ℕ) → stands_on (leaving (edges_of self.now) f) e ≡ true → rest_of (leaving (edges_of self.now) f) (Some e) ≡ e ∷ rest_of (leaving (edges_of self.now) f) result }
        ensures on { (f : ℕ) → stands_on (leaving (edges_of self.now) f) e ≡ true → IfSome result (λ r. stands_on (leaving (edges_of self.now) f) r ≡ true) }
    {
        self.calls.next(e)
    }

    /// The first edge that enters a function.
    pub(crate) fn first_caller(&self, f: u32) -> Option<usize>
        requires { f < length (frames_of self.now) }
        ensures all { rest_of (entering (edges_of self.now) f) result ≡ entering (edges_of self.now) f }
        ensures on { IfSome result (λ e. stands_on (entering (edges_of self.now) f) e ≡ true) }
    {
        self.callers.first(f)
    }

    /// The edge behind one that enters a function.
    pub(crate) fn next_caller(&self, e: usize) -> Option<usize>
        requires { (f : ℕ) × (stands_on (entering (edges_of self.now) f) e ≡ true) }
        ensures rest { (f : ℕ) → stands_on (entering (edges_of self.now) f) e ≡ true → rest_of (entering (edges_of self.now) f) (Some e) ≡ e ∷ rest_of (entering (edges_of self.now) f) result }
        ensures on { (f : ℕ) → stands_on (entering (edges_of self.now) f) e ≡ true → IfSome result (λ r. stands_on (entering (edges_of self.now) f) r ≡ true) }
    {
        self.callers.next(e)
    }

    /// An edge, by its number.
    pub(crate) fn edge(&self, e: usize) -> Edge
        requires { e < length (edges_of self.now) }
        ensures is { slice_get (edges_of self.now) e ≡ Some result }
        ensures from { result.from < length (frames_of self.now) }
        ensures to { result.to < length (frames_of self.now) }
    {
        self.edges[e]
    }

    /// The frame of a function.
    pub(crate) fn frame(&self, f: u32) -> u32
        requires { f < length (frames_of self.now) }
        ensures is { result ≡ frame_in self.now f }
        ensures low { result ≤ MAX_STACK_LIMIT }
    {
        self.frames[f as usize]
    }

    /// What an edge takes, with what its callee needs.
    pub(crate) fn taken_by(&self, needs: &[Option<u64>], e: usize) -> u64
        requires e { e < length (edges_of self.now) }
        requires all { length needs.now ≡ length (frames_of self.now) }
        requires small { (g v : ℕ) → slice_get needs.now g ≡ Some (Some v) → v < 2 ^ 63 }
        ensures { result ≡ taken_by (frames_of self.now) needs.now (slice_get (edges_of self.now) e) }
    {
        let edge = self.edge(e);
        let need = match needs[edge.to as usize] {
            Some(v) => v,
            None => 0,
        };
        let weight = if edge.call { self.frame(edge.from) } else { 0 };
        u64::from(weight) + need
    }

    /// Whether the callee of an edge isn't done.
    pub(crate) fn is_open(&self, needs: &[Option<u64>], e: usize) -> bool
        requires e { e < length (edges_of self.now) }
        requires all { length needs.now ≡ length (frames_of self.now) }
        ensures open { result ≡ true → IsOpen (edges_of self.now) needs.now e }
        ensures closed { result ≡ false → IsClosed (edges_of self.now) needs.now e }
    {
        let to = self.edge(e).to as usize;
        match needs[to] {
            None => true,
            Some(_) => false,
        }
    }

    /// How many functions there are.
    pub fn count(&self) -> u32
        ensures { result ≡ length (frames_of self.now) }
    {
        self.frames.len() as u32
    }
}
