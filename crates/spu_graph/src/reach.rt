//! The functions that paths from an entry reach.

ghost use Rattle.std.specs.Prelude.{◌≡◌, ◌+◌, ◌<◌, ◌≤◌, ◌⊎◌, ℕ, List, [], ◌∷◌, ◌++◌, length, replicate, true, false, min, IfSome, IfOk, OnOk, slice_get};
ghost use Rattle.spu_word.specs.Lists.{stands_on};
ghost use Rattle.spu_graph.specs.Edges.{leaving, rest_of};
ghost use Rattle.spu_graph.specs.Graphs.{frames_of, edges_of};
ghost use Rattle.spu_graph.specs.Reaching.{IsReaching, IsVisited, AreReached};

use crate::graph::Graph;
use spu_word::OutOfMemory;
use std::alloc::Global;

/// Marks f, if it isn't marked.
fn visit(marks: &mut Vec<bool>, order: &mut Vec<u32>, f: u32) -> Result<(), OutOfMemory>
    requires { f < length marks.old.items }
    ensures { OnOk result (IsVisited marks.old.items order.old.items f marks.new.items order.new.items) }
{
    if marks[f as usize] {
        return Ok(());
    }
    order.push(f)?;
    marks[f as usize] = true;
    Ok(())
}

/// Marks the callees of g.
fn spread(
    graph: &Graph,
    entry: u32,
    marks: &mut Vec<bool>,
    order: &mut Vec<u32>,
    g: u32,
) -> Result<(), OutOfMemory>
    requires g { g < length (frames_of graph.now) }
    requires on { slice_get marks.old.items g ≡ Some true }
    requires reaching { (told : ℕ) × IsReaching (length (frames_of graph.now)) (edges_of graph.now) entry marks.old.items order.old.items told (leaving (edges_of graph.now) g) }
    ensures { OnOk result ((told : ℕ) → IsReaching (length (frames_of graph.now)) (edges_of graph.now) entry marks.old.items order.old.items told (leaving (edges_of graph.now) g)
        → IsReaching (length (frames_of graph.now)) (edges_of graph.now) entry marks.new.items order.new.items told []) }
{
    let mut at = graph.first_call(g);
    while let Some(e) = at {
        let next = graph.next_call(e);
        visit(marks, order, graph.edge(e).to)?;
        at = next;
    }
    Ok(())
}

/// The function at a place of the order, if there is one, leads on.
fn take_step(
    graph: &Graph,
    entry: u32,
    marks: &mut Vec<bool>,
    order: &mut Vec<u32>,
    i: usize,
) -> Result<(), OutOfMemory>
    requires { (told : ℕ) × IsReaching (length (frames_of graph.now)) (edges_of graph.now) entry marks.old.items order.old.items told [] × (min i (length order.old.items) ≡ told) }
    ensures { OnOk result ((told : ℕ) × IsReaching (length (frames_of graph.now)) (edges_of graph.now) entry marks.new.items order.new.items told [] × (min (i + 1) (length order.new.items) ≡ told)) }
{
    if i >= order.len() {
        return Ok(());
    }
    let g = order[i];
    spread(graph, entry, marks, order, g)?;
    Ok(())
}

/// Marks of the functions that paths from the entry reach.
pub fn reach(graph: &Graph, alloc: Global, entry: u32) -> Result<Vec<bool>, OutOfMemory>
    requires { entry < length (frames_of graph.now) }
    ensures { IfOk result (λ marks. AreReached (length (frames_of graph.now)) (edges_of graph.now) entry marks.items) }
{
    let count = graph.count();
    let mut marks = vec![in alloc; false; count as usize]?;
    let mut order = Vec::new(alloc);
    visit(&mut marks, &mut order, entry)?;
    for i in 0..count as usize {
        take_step(graph, entry, &mut marks, &mut order, i)?;
    }
    Ok(marks)
}
