//! A walk over functions that are not done, which comes to a cycle.

ghost use Rattle.std.specs.Prelude.{◌≡◌, ◌<◌, ◌≤◌, List, [], ◌∷◌, ◌++◌, length, drop, replicate, Some, None, IfOk, OnOk, slice_get, slice_set};
ghost use Rattle.std.specs.List.{Contains};
ghost use Rattle.spu_graph.specs.Graphs.{frames_of, edges_of};
ghost use Rattle.spu_graph.specs.Peeling.{IsPeeled};
ghost use Rattle.spu_graph.specs.Cycles.{Leads, IsCycle};

use crate::graph::Graph;
use crate::peel::waiting;
use spu_word::{OutOfMemory, Seq};
use std::alloc::Global;

/// The functions of a walk, and the index of each of them there.
#[derive(Drop)]
pub struct Trace {
    path: Vec<u32>,
    indices: Vec<Option<usize>>,
}

impl Trace {
    /// The walk over no function yet, among that many.
    fn new(alloc: Global, count: u32) -> Result<Trace, OutOfMemory>
        ensures path { IfOk result (λ t. t.path.items ≡ []) }
        ensures indices { IfOk result (λ t. t.indices.items ≡ replicate count None) }
    {
        Ok(Trace {
            path: Vec::new(alloc),
            indices: vec![in alloc; None; count as usize]?,
        })
    }

    /// The index of a function on the walk, if it is there.
    fn index_of(&self, f: u32) -> Option<usize>
        requires { f < length self.now.indices.items }
        ensures { slice_get self.now.indices.items f ≡ Some result }
    {
        self.indices[f as usize]
    }

    /// Goes over one function more.
    fn visit(&mut self, f: u32) -> Result<(), OutOfMemory>
        requires { f < length self.old.indices.items }
        ensures path { OnOk result (self.new.path.items ≡ self.old.path.items ++ f ∷ []) }
        ensures indices { OnOk result (self.new.indices.items ≡ slice_set self.old.indices.items f (Some (length self.old.path.items))) }
    {
        let index = self.path.len();
        self.path.push(f)?;
        self.indices[f as usize] = Some(index);
        Ok(())
    }

    /// The functions of the walk from an index on.
    fn from(&self, alloc: Global, first: usize) -> Result<Seq<u32>, OutOfMemory>
        requires { first ≤ length self.now.path.items }
        ensures { IfOk result (λ members. members ≡ drop first self.now.path.items) }
    {
        let mut members = Seq::new(alloc);
        for f in &self.path[first..] {
            members.push(*f)?;
        }
        Ok(members)
    }
}

/// A function that isn't done, to which an edge leads from one that isn't done either.
fn undone_callee(graph: &Graph, needs: &[Option<u64>], f: u32) -> u32
    requires peeled { IsPeeled (frames_of graph.now) (edges_of graph.now) needs.now }
    requires f { slice_get needs.now f ≡ Some None }
    ensures undone { slice_get needs.now result ≡ Some None }
    ensures leads { Leads (Contains (edges_of graph.now)) f result }
{
    match waiting(graph, needs, f, graph.first_call(f)) {
        Some(e) => graph.edge(e).to,
        None => f,
    }
}

/// A cycle to which a path from the entry leads, which isn't done.
pub fn cycle_from(
    graph: &Graph,
    alloc: Global,
    needs: &[Option<u64>],
    entry: u32,
) -> Result<Seq<u32>, OutOfMemory>
    requires peeled { IsPeeled (frames_of graph.now) (edges_of graph.now) needs.now }
    requires entry { slice_get needs.now entry ≡ Some None }
    ensures { IfOk result (IsCycle (Contains (edges_of graph.now)) entry) }
{
    let mut trace = Trace::new(alloc, graph.count())?;
    let mut f = entry;
    loop {
        match trace.index_of(f) {
            Some(first) => return trace.from(alloc, first),
            None => {
                trace.visit(f)?;
                f = undone_callee(graph, needs, f);
            }
        }
    }
}
