//! What places reach in a graph.
ghost use Rattle.std.specs.Prelude.{◌≡◌, ◌∷◌, [], ◌<◌, ℕ, length, replicate, slice_index_or, true, false, OnOk, IfOk};
ghost use Rattle.hq_gql_nodes.specs.Reach.{graph_view, has, reached};
ghost use Rattle.hq_gql_nodes.specs.Marks.{Among, Agrees, Adds};

use hq_base::Memory;
use std::alloc::Global;

// Marks a place, where it is not marked yet.
fn mark(marks: &mut Vec<bool>, order: &mut Vec<usize>, place: usize) -> Result<(), Memory>
    requires { Agrees marks.old.items order.old.items }
    ensures length { length marks.new.items ≡ length marks.old.items }
    ensures agrees { OnOk result (Agrees marks.new.items order.new.items) }
    ensures marked { OnOk result (place < length marks.old.items → has order.new.items place ≡ true) }
    ensures adds { OnOk result (Adds (length marks.old.items) (place ∷ []) order.old.items order.new.items) }
{
    if place < marks.len() && !marks[place] {
        order.push(place)?;
        marks[place] = true;
    }
    Ok(())
}

// Marks places, where they are not marked yet.
fn mark_all(marks: &mut Vec<bool>, order: &mut Vec<usize>, places: &[usize]) -> Result<(), Memory>
    requires { Agrees marks.old.items order.old.items }
    ensures length { length marks.new.items ≡ length marks.old.items }
    ensures agrees { OnOk result (Agrees marks.new.items order.new.items) }
    ensures marked { OnOk result ((q : ℕ) → Among (length marks.old.items) places.now q → has order.new.items q ≡ true) }
    ensures adds { OnOk result (Adds (length marks.old.items) places.now order.old.items order.new.items) }
{
    for place in places {
        mark(&mut *marks, &mut *order, *place)?;
    }
    Ok(())
}

// No place of a graph of this many places.
fn none_marked(alloc: Global, places: usize) -> Result<Vec<bool>, Memory>
    ensures { IfOk result (λ marks. marks.items ≡ replicate places false) }
{
    Ok(Vec::from_elem(alloc, false, places)?)
}

/// The places to which a place leads.
pub fn row(graph: &[Vec<usize>], place: usize) -> &[usize]
    ensures { result.now ≡ slice_index_or (graph_view graph.now) place [] }
{
    match graph.get(place) {
        Some(row) => row.as_slice(),
        None => &[],
    }
}

/// The places that some places reach, each once, themselves among them. Places beyond the graph count as none.
pub fn reached(alloc: Global, graph: &[Vec<usize>], starts: &[usize]) -> Result<Vec<usize>, Memory>
    ensures { IfOk result (λ found. (q : ℕ) → has found.items q ≡ has (reached (graph_view graph.now) starts.now) q) }
{
    let mut marks = none_marked(alloc, graph.len())?;
    let mut order = Vec::new(alloc);
    mark_all(&mut marks, &mut order, starts)?;
    let mut at = 0;
    while at < order.len() {
        let next = row(graph, order[at]);
        mark_all(&mut marks, &mut order, next)?;
        at += 1;
    }
    Ok(order)
}
