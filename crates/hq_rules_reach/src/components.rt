//! The parts of a graph whose places lead to each other, told by numbers that do not fall along any step.
ghost use Rattle.std.specs.Prelude.{◌≡◌, ◌<◌, ◌≤◌, ℕ, length, true, false, slice_index_or, IfOk};
ghost use Rattle.hq_gql_nodes.specs.Reach.{graph_view};
ghost use Rattle.hq_gql_nodes.specs.Marks.{Among};
ghost use Rattle.hq_rules_reach.specs.Spreads.{leads_back};
ghost use Rattle.hq_rules_reach.specs.Rises.{Rises};

use hq_base::Memory;
use hq_gql_nodes::row;
use std::alloc::Global;

// What a search has to do at a place.
#[derive(Clone, Copy)]
enum Visit {
    Enter(usize),
    Leave(usize),
}

// Marks a place. Whether it was not marked before.
fn mark(seen: &mut Vec<bool>, place: usize) -> bool {
    match seen.get_mut(place) {
        Some(mark) => {
            let first = !*mark;
            *mark = true;
            first
        }
        None => false,
    }
}

fn push_enters(visits: &mut Vec<Visit>, places: &[usize]) -> Result<(), Memory> {
    for place in places {
        visits.push(Visit::Enter(*place))?;
    }
    Ok(())
}

fn make_visit(
    graph: &[Vec<usize>],
    seen: &mut Vec<bool>,
    visits: &mut Vec<Visit>,
    order: &mut Vec<usize>,
    next: Visit,
) -> Result<(), Memory> {
    match next {
        Visit::Leave(place) => {
            order.push(place)?;
        }
        Visit::Enter(place) => {
            if mark(&mut *seen, place) {
                visits.push(Visit::Leave(place))?;
                push_enters(&mut *visits, row(graph, place))?;
            }
        }
    }
    Ok(())
}

// How many visits a search of a graph makes at most.
fn most_visits(graph: &[Vec<usize>]) -> usize {
    let mut most = graph.len().saturating_add(graph.len());
    for places in graph {
        most = most.saturating_add(places.len());
    }
    most
}

// A visit to each place.
fn first_visits(alloc: Global, graph: &[Vec<usize>]) -> Result<Vec<Visit>, Memory> {
    let mut visits = Vec::new(alloc);
    for place in 0..graph.len() {
        visits.push(Visit::Enter(place))?;
    }
    Ok(visits)
}

// The places in the order in which a search in depth leaves them.
fn leaving_order(alloc: Global, graph: &[Vec<usize>]) -> Result<Vec<usize>, Memory> {
    let mut seen = Vec::from_elem(alloc, false, graph.len())?;
    let mut visits = first_visits(alloc, graph)?;
    let mut order = Vec::new(alloc);
    for _ in 0..most_visits(graph) {
        let Some(next) = visits.pop() else {
            break;
        };
        make_visit(graph, &mut seen, &mut visits, &mut order, next)?;
    }
    Ok(order)
}

// As many rows without a place.
fn empty_rows(alloc: Global, count: usize) -> Result<Vec<Vec<usize>>, Memory> {
    let mut rows = Vec::new(alloc);
    for _ in 0..count {
        rows.push(Vec::new(alloc))?;
    }
    Ok(rows)
}

// Adds a place to the rows of those to which it leads.
fn push_back(back: &mut Vec<Vec<usize>>, places: &[usize], place: usize) -> Result<(), Memory> {
    for to in places {
        if let Some(row) = back.get_mut(*to) {
            row.push(place)?;
        }
    }
    Ok(())
}

// The graph with each step turned round.
fn turned(alloc: Global, graph: &[Vec<usize>]) -> Result<Vec<Vec<usize>>, Memory> {
    let mut back = empty_rows(alloc, graph.len())?;
    for place in 0..graph.len() {
        push_back(&mut back, row(graph, place), place)?;
    }
    Ok(back)
}

// Numbers a place. Whether it had no number before.
fn number_place(numbers: &mut Vec<usize>, place: usize, number: usize) -> bool
    ensures { length numbers.new.items ≡ length numbers.old.items }
{
    match numbers.get_mut(place) {
        Some(old) if *old == 0 => {
            *old = number;
            true
        }
        _ => false,
    }
}

fn push_all(left: &mut Vec<usize>, places: &[usize]) -> Result<(), Memory> {
    for place in places {
        left.push(*place)?;
    }
    Ok(())
}

// Numbers what a place reaches and has no number yet.
fn number_from(
    alloc: Global,
    graph: &[Vec<usize>],
    numbers: &mut Vec<usize>,
    start: usize,
    number: usize,
) -> Result<(), Memory>
    ensures { length numbers.new.items ≡ length numbers.old.items }
{
    let mut left = Vec::new(alloc);
    left.push(start)?;
    for _ in 0..usize::MAX {
        let Some(place) = left.pop() else {
            break;
        };
        if number_place(&mut *numbers, place, number) {
            push_all(&mut left, row(graph, place))?;
        }
    }
    Ok(())
}

// As many zeros as this.
fn zeros(alloc: Global, count: usize) -> Result<Vec<usize>, Memory>
    ensures { IfOk result (λ zeros. length zeros.items ≡ count) }
{
    Ok(Vec::from_elem(alloc, 0, count)?)
}

/// A number for each place, the same for places that lead to each other, and meant not to fall along any step: places that a
/// search left later are numbered earlier, with all that leads to them. Whether the numbers do rise is for `rises` to say.
pub fn components(alloc: Global, graph: &[Vec<usize>]) -> Result<Vec<usize>, Memory>
    ensures { IfOk result (λ numbers. length numbers.items ≡ length graph.now) }
{
    let order = leaving_order(alloc, graph)?;
    let back = turned(alloc, graph)?;
    let mut numbers = zeros(alloc, graph.len())?;
    for at in 0..order.len() {
        let start = order[order.len() - 1 - at];
        number_from(alloc, &back, &mut numbers, start, at + 1)?;
    }
    Ok(numbers)
}

// Whether none of these places has a lesser number than this.
fn none_below(numbers: &[usize], places: &[usize], number: usize) -> bool
    ensures { result ≡ true → (q : ℕ) → Among (length numbers.now) places.now q → number ≤ slice_index_or numbers.now q 0 }
{
    for place in places {
        if *place < numbers.len() && numbers[*place] < number {
            return false;
        }
    }
    true
}

/// Whether the numbers fall along no step.
pub fn rises(graph: &[Vec<usize>], numbers: &[usize]) -> bool
    requires { length numbers.now ≡ length graph.now }
    ensures { result ≡ true → Rises (graph_view graph.now) numbers.now }
{
    for place in 0..graph.len() {
        if !none_below(numbers, row(graph, place), numbers[place]) {
            return false;
        }
    }
    true
}

// Whether all of these places have greater numbers than this.
fn all_above(numbers: &[usize], places: &[usize], number: usize) -> bool
    ensures { result ≡ true → (q : ℕ) → Among (length numbers.now) places.now q → number < slice_index_or numbers.now q 0 }
{
    for place in places {
        if *place < numbers.len() && numbers[*place] <= number {
            return false;
        }
    }
    true
}

/// Whether a place leads to places of greater numbers alone. Then it does not lead back to itself.
pub fn leaves(graph: &[Vec<usize>], numbers: &[usize], place: usize) -> bool
    requires long { length numbers.now ≡ length graph.now }
    requires rising { Rises (graph_view graph.now) numbers.now }
    ensures { result ≡ true → leads_back (graph_view graph.now) place ≡ false }
{
    match numbers.get(place) {
        Some(number) => all_above(numbers, row(graph, place), *number),
        None => false,
    }
}
