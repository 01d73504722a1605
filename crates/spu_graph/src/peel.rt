//! Functions are peeled off a call graph: one whose callees are done is done.

ghost use Rattle.std.specs.Prelude.{◌≡◌, ◌^◌, ◌+◌, ◌*◌, ◌<◌, ◌≤◌, ◌⊎◌, ℕ, List, [], ◌∷◌, ◌++◌, length, replicate, true, false, max, min, IfSome, IfOk, OnOk, OnErr, slice_get, slice_index};
ghost use Rattle.spu_word.specs.Lists.{stands_on};
ghost use Rattle.spu_graph.specs.Edges.{leaving, entering, rest_of};
ghost use Rattle.spu_graph.specs.Graphs.{frames_of, edges_of, frame_in};
ghost use Rattle.spu_graph.specs.Peeling.{IsOpen, IsClosed, greatest_on, IsSettled, IsPeeling, IsPeeled};

use crate::graph::Graph;
use spu_word::OutOfMemory;
use std::alloc::Global;

/// The first edge of f from one on whose callee isn't done.
pub(crate) fn waiting(
    graph: &Graph,
    needs: &[Option<u64>],
    f: u32,
    from: Option<usize>,
) -> Option<usize>
    requires all { length needs.now ≡ length (frames_of graph.now) }
    requires on { IfSome from (λ e. stands_on (leaving (edges_of graph.now) f) e ≡ true) }
    ensures open { IfSome result (λ e. IsOpen (edges_of graph.now) needs.now e) }
    ensures on { IfSome result (λ e. stands_on (leaving (edges_of graph.now) f) e ≡ true) }
    ensures passed { (k : ℕ) → stands_on (rest_of (leaving (edges_of graph.now) f) from) k ≡ true → IsClosed (edges_of graph.now) needs.now k ⊎ (stands_on (rest_of (leaving (edges_of graph.now) f) result) k ≡ true) }
{
    let mut at = from;
    while let Some(e) = at {
        if graph.is_open(needs, e) {
            return Some(e);
        }
        at = graph.next_call(e);
    }
    None
}

/// The greatest of f's frame and of what its edges take.
fn greatest(graph: &Graph, needs: &[Option<u64>], f: u32) -> u64
    requires all { length needs.now ≡ length (frames_of graph.now) }
    requires f { f < length (frames_of graph.now) }
    requires small { (g v : ℕ) → slice_get needs.now g ≡ Some (Some v) → v < 2 ^ 63 }
    ensures { result ≡ max (frame_in graph.now f) (greatest_on (frames_of graph.now) needs.now (edges_of graph.now) (leaving (edges_of graph.now) f)) }
{
    let mut best = u64::from(graph.frame(f));
    let mut at = graph.first_call(f);
    while let Some(e) = at {
        best = best.max(graph.taken_by(needs, e));
        at = graph.next_call(e);
    }
    best
}

/// Moves f on to its first edge, from one on, whose callee isn't done. Where there is none, f is done.
fn settle(
    graph: &Graph,
    needs: &mut Vec<Option<u64>>,
    waits: &mut Vec<Option<usize>>,
    order: &mut Vec<u32>,
    f: u32,
    from: Option<usize>,
) -> Result<(), OutOfMemory>
    requires needs { length needs.old.items ≡ length (frames_of graph.now) }
    requires waits { length waits.old.items ≡ length (frames_of graph.now) }
    requires f { f < length (frames_of graph.now) }
    requires small { (g v : ℕ) → slice_get needs.old.items g ≡ Some (Some v) → v < 2 ^ 63 }
    requires on { IfSome from (λ e. stands_on (leaving (edges_of graph.now) f) e ≡ true) }
    ensures { OnOk result (IsSettled (frames_of graph.now) (edges_of graph.now) f from needs.old.items waits.old.items order.old.items needs.new.items waits.new.items order.new.items) }
{
    match waiting(graph, needs, f, from) {
        Some(e) => {
            waits[f as usize] = Some(e);
            Ok(())
        }
        None => {
            let need = greatest(graph, needs, f);
            order.push(f)?;
            needs[f as usize] = Some(need);
            Ok(())
        }
    }
}

/// Whether f isn't done, and waits at this edge.
fn is_waiting(needs: &Vec<Option<u64>>, waits: &Vec<Option<usize>>, f: u32, e: usize) -> bool
    requires needs { f < length needs.now.items }
    requires waits { f < length waits.now.items }
    ensures yes { result ≡ true → (slice_get needs.now.items f ≡ Some None) × (slice_get waits.now.items f ≡ Some (Some e)) }
    ensures no { result ≡ false → slice_get needs.now.items f ≡ Some None → slice_get waits.now.items f ≡ Some (Some e) → ⊥ }
{
    match needs[f as usize] {
        Some(_) => false,
        None => match waits[f as usize] {
            Some(at) => at == e,
            None => false,
        },
    }
}

/// Tells the caller of an edge, whose callee is done.
fn tell(
    graph: &Graph,
    needs: &mut Vec<Option<u64>>,
    waits: &mut Vec<Option<usize>>,
    order: &mut Vec<u32>,
    e: usize,
) -> Result<(), OutOfMemory>
    requires e { e < length (edges_of graph.now) }
    requires peeling { (told : ℕ) × (g : ℕ) × (rest : List ℕ) × IsPeeling (frames_of graph.now) (edges_of graph.now) needs.old.items waits.old.items order.old.items (length (frames_of graph.now)) None told g (e ∷ rest) }
    ensures { OnOk result ((told g : ℕ) (rest : List ℕ) → IsPeeling (frames_of graph.now) (edges_of graph.now) needs.old.items waits.old.items order.old.items (length (frames_of graph.now)) None told g (e ∷ rest)
        → IsPeeling (frames_of graph.now) (edges_of graph.now) needs.new.items waits.new.items order.new.items (length (frames_of graph.now)) None told g rest) }
{
    let f = graph.edge(e).from;
    if is_waiting(needs, waits, f, e) {
        settle(graph, needs, waits, order, f, Some(e))?;
        return Ok(());
    }
    Ok(())
}

/// Tells the callers of g, which is done.
fn release(
    graph: &Graph,
    needs: &mut Vec<Option<u64>>,
    waits: &mut Vec<Option<usize>>,
    order: &mut Vec<u32>,
    g: u32,
) -> Result<(), OutOfMemory>
    requires g { g < length (frames_of graph.now) }
    requires peeling { (told : ℕ) × IsPeeling (frames_of graph.now) (edges_of graph.now) needs.old.items waits.old.items order.old.items (length (frames_of graph.now)) None told g (entering (edges_of graph.now) g) }
    ensures { OnOk result ((told : ℕ) → IsPeeling (frames_of graph.now) (edges_of graph.now) needs.old.items waits.old.items order.old.items (length (frames_of graph.now)) None told g (entering (edges_of graph.now) g)
        → IsPeeling (frames_of graph.now) (edges_of graph.now) needs.new.items waits.new.items order.new.items (length (frames_of graph.now)) None told g []) }
{
    let mut at = graph.first_caller(g);
    while let Some(e) = at {
        let next = graph.next_caller(e);
        tell(graph, needs, waits, order, e)?;
        at = next;
    }
    Ok(())
}

/// The function at a place of the order, if there is one, tells its callers.
fn take_turn(
    graph: &Graph,
    needs: &mut Vec<Option<u64>>,
    waits: &mut Vec<Option<usize>>,
    order: &mut Vec<u32>,
    i: usize,
) -> Result<(), OutOfMemory>
    requires { (told : ℕ) × (g : ℕ) × IsPeeling (frames_of graph.now) (edges_of graph.now) needs.old.items waits.old.items order.old.items (length (frames_of graph.now)) None told g [] × (min i (length order.old.items) ≡ told) }
    ensures { OnOk result ((told : ℕ) × (g : ℕ) × IsPeeling (frames_of graph.now) (edges_of graph.now) needs.new.items waits.new.items order.new.items (length (frames_of graph.now)) None told g [] × (min (i + 1) (length order.new.items) ≡ told)) }
{
    if i >= order.len() {
        return Ok(());
    }
    let g = order[i];
    release(graph, needs, waits, order, g)?;
    Ok(())
}

/// The needs of the functions from which no path is recursive. Each other one has an edge to one of the others.
pub fn peel(graph: &Graph, alloc: Global) -> Result<Vec<Option<u64>>, OutOfMemory>
    ensures { IfOk result (λ needs. IsPeeled (frames_of graph.now) (edges_of graph.now) needs.items) }
{
    let count = graph.count();
    let mut needs = vec![in alloc; None; count as usize]?;
    let mut waits = vec![in alloc; None; count as usize]?;
    let mut order = Vec::new(alloc);
    for f in 0..count {
        let from = graph.first_call(f);
        settle(graph, &mut needs, &mut waits, &mut order, f, from)?;
    }
    for i in 0..count as usize {
        take_turn(graph, &mut needs, &mut waits, &mut order, i)?;
    }
    Ok(needs)
}
