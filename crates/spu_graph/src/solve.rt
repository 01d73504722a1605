//! The needs of a graph, or the cycle for which it has none.

ghost use Rattle.std.specs.Prelude.{◌≡◌, ◌<◌, length, IfOk, IfErr, slice_index};
ghost use Rattle.std.specs.List.{Contains};
ghost use Rattle.spu_graph.specs.Graphs.{frames_of, edges_of};
ghost use Rattle.spu_graph.specs.Paths.{IsRecursive};
ghost use Rattle.spu_graph.specs.Known.{AreNeeds, need_of};
ghost use Rattle.spu_graph.specs.Cycles.{IsRefused};

use crate::fault::GraphFault;
use crate::graph::Graph;
use crate::needed::Needs;
use crate::peel::peel;
use crate::reach::reach;
use crate::trace::cycle_from;
use std::alloc::Global;

impl Graph {
    /// The need of each function that a path from the entry reaches; or, exactly where some path from
    /// the entry comes to a function twice, a cycle. Time and memory are linear in functions and edges.
    pub fn needs(&self, alloc: Global, entry: u32) -> Result<Needs, GraphFault>
        requires { entry < length (frames_of self.now) }
        ensures needs { IfOk result (λ n. AreNeeds (Contains (edges_of self.now)) (slice_index (frames_of self.now)) entry (need_of n)) }
        ensures acyclic { IfOk result (λ n. IsRecursive (Contains (edges_of self.now)) entry → ⊥) }
        ensures refused { IfErr result (IsRefused (Contains (edges_of self.now)) entry) }
    {
        let known = peel(self, alloc)?;
        match known[entry as usize] {
            Some(_) => Ok(Needs {
                marks: reach(self, alloc, entry)?,
                known,
            }),
            None => Err(GraphFault::Recursion(cycle_from(self, alloc, &known, entry)?)),
        }
    }
}
