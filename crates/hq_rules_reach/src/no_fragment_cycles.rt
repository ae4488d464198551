//! 5.5.2.2 Fragment Spreads Must Not Form Cycles: a fragment from which spreads lead back to it.
ghost use Rattle.std.specs.Prelude.{◌≡◌, ◌<◌, Bool, true, false, length, IfOk};
ghost use Rattle.hq_gql_nodes.specs.Least.{earlier, at_if};
ghost use Rattle.hq_gql_nodes.specs.Reach.{graph_view, has};
ghost use Rattle.hq_gql_tree.specs.Documents.{fragment as fragment_tree, fragment_view, definition_view};
ghost use Rattle.hq_gql_tree.specs.View.{document_view};
ghost use Rattle.hq_rules_reach.specs.Rises.{Rises};
ghost use Rattle.hq_rules_reach.specs.Spreads.{leads_back, cycle_at, no_fragment_cycles};

use crate::components::{components, leaves, rises};
use hq_base::Memory;
use hq_gql_nodes::{at_if, earlier, reached, row};
use hq_gql_tree::{Definition, Document, Fragment};
use std::alloc::Global;

fn contains(places: &[usize], place: usize) -> bool
    ensures { result ≡ has places.now place }
{
    places.iter().any(|p| place == *p)
}

fn leads_back(alloc: Global, graph: &[Vec<usize>], at: usize) -> Result<bool, Memory>
    ensures { IfOk result (λ back. back ≡ leads_back (graph_view graph.now) at) }
{
    let found = reached(alloc, graph, row(graph, at))?;
    Ok(contains(&found, at))
}

// Whether a place is not before the least one that is found.
fn is_behind(least: Option<u64>, at: u64) -> bool
    ensures { result ≡ true → (b : Bool) → earlier least (at_if b at) ≡ least }
{
    match least {
        Some(place) => place <= at,
        None => false,
    }
}

// Whether a fragment cannot lead back, by numbers that rise.
fn is_outside(graph: &[Vec<usize>], numbers: &[usize], rising: bool, at: usize) -> bool
    requires long { length numbers.now ≡ length graph.now }
    requires rising { rising ≡ true → Rises (graph_view graph.now) numbers.now }
    ensures { result ≡ true → leads_back (graph_view graph.now) at ≡ false }
{
    rising && leaves(graph, numbers, at)
}

// The lesser of the least place so far and that of a fragment that leads back to itself.
fn least_with(
    alloc: Global,
    graph: &[Vec<usize>],
    least: Option<u64>,
    outside: bool,
    at: usize,
    fragment: &Fragment,
) -> Result<Option<u64>, Memory>
    requires { outside ≡ true → leads_back (graph_view graph.now) at ≡ false }
    ensures { IfOk result (λ place. place ≡ earlier least (cycle_at (graph_view graph.now) at (fragment_tree (fragment_view fragment.now)))) }
{
    if outside || is_behind(least, fragment.at) {
        return Ok(least);
    }
    let back = leads_back(alloc, graph, at)?;
    Ok(earlier(least, at_if(back, fragment.at)))
}

// The same for a definition.
fn least_at(
    alloc: Global,
    graph: &[Vec<usize>],
    least: Option<u64>,
    outside: bool,
    at: usize,
    definition: &Definition,
) -> Result<Option<u64>, Memory>
    requires { outside ≡ true → leads_back (graph_view graph.now) at ≡ false }
    ensures { IfOk result (λ place. place ≡ earlier least (cycle_at (graph_view graph.now) at (definition_view definition.now))) }
{
    match definition {
        Definition::Operation(_) => Ok(least),
        Definition::Fragment(fragment) => least_with(alloc, graph, least, outside, at, fragment),
    }
}

// The least place, by a search from each fragment that the numbers do not put outside of all cycles.
fn least_cycle(
    alloc: Global,
    graph: &[Vec<usize>],
    numbers: &[usize],
    rising: bool,
    document: &Document,
) -> Result<Option<u64>, Memory>
    requires long { length numbers.now ≡ length graph.now }
    requires rising { rising ≡ true → Rises (graph_view graph.now) numbers.now }
    ensures { IfOk result (λ place. place ≡ no_fragment_cycles (graph_view graph.now) (document_view document.now)) }
{
    let mut least = None;
    for (at, definition) in document.definitions.iter().enumerate() {
        let outside = is_outside(graph, numbers, rising, at);
        least = least_at(alloc, graph, least, outside, at, definition)?;
    }
    Ok(least)
}

/// The least place at which a document of this graph violates the rule. A search is made only from a fragment that is spread by
/// one that it reaches, and where no earlier one was found.
pub fn no_fragment_cycles(
    alloc: Global,
    graph: &[Vec<usize>],
    document: &Document,
) -> Result<Option<u64>, Memory>
    ensures { IfOk result (λ place. place ≡ no_fragment_cycles (graph_view graph.now) (document_view document.now)) }
{
    let numbers = components(alloc, graph)?;
    let rising = rises(graph, &numbers);
    least_cycle(alloc, graph, &numbers, rising, document)
}
