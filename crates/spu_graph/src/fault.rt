//! Why a graph has no needs.

ghost use Rattle.std.specs.Prelude.{◌≡◌};
ghost use Rattle.spu_graph.specs.declared.fault.GraphFault.TheVariants as faults;

use spu_word::{OutOfMemory, Seq};

/// Why a graph has no needs from its entry.
#[derive(Drop)]
pub enum GraphFault {
    /// L18: the functions of a cycle. Each has an edge to the next one, and the last to the first, to
    /// which a path from the entry leads.
    Recursion(Seq<u32>),
    /// Memory ran out.
    OutOfMemory,
}

impl From<OutOfMemory> for GraphFault {
    ghost from_gives = { λ _ e. e ≡ faults.OutOfMemory };

    fn from(_e: OutOfMemory) -> GraphFault {
        GraphFault::OutOfMemory
    }
}
