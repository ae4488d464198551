//! The fragments of a document by their names, and what its definitions spread.
ghost use Rattle.std.specs.Prelude.{◌≡◌, ◌++◌, ℕ, List, map, IfOk, OnOk, Some, None, if◌then◌else◌};
ghost use Rattle.std.specs.Option.{option_or, option_to_list};
ghost use Rattle.hq_gql_tree.specs.Documents.{definition_view};
ghost use Rattle.hq_gql_tree.specs.View.{document_view};
ghost use Rattle.hq_gql_nodes.specs.Names.{get_name};
ghost use Rattle.hq_gql_nodes.specs.Fragments.{is_fragment_named, fragment_named, spread_target, spread_targets, graph_of};
ghost use Rattle.hq_gql_nodes.specs.Nodes.{node_view, part_view};
ghost use Rattle.hq_gql_nodes.specs.Reach.{graph_view};

use crate::names::{NamePlaces, note_first};
use crate::{Node, Part};
use hq_base::{Memory, Txt};
use hq_gql_tree::{Definition, Document};
use std::alloc::Global;
use std::collections::HashMap;

// Notes the name of the definition at a place, where it is a fragment and none of its name is noted yet.
#[tactic(auto, using(crate::proofs::Lists::option_or_none))]
fn note_fragment<'a>(
    places: &mut NamePlaces<'a>,
    definition: &'a Definition,
    at: usize,
) -> Result<(), Memory>
    ensures { OnOk result ((q : List ℕ) → get_name places.new q ≡ option_or (get_name places.old q) (if is_fragment_named q (definition_view definition.now) then Some at else None)) }
{
    match definition {
        Definition::Operation(_) => Ok(()),
        Definition::Fragment(fragment) => note_first(&mut *places, fragment.name.as_str(), at),
    }
}

/// The places of a document's fragments. Of two fragments of one name the first is meant.
pub fn fragment_places<'a>(alloc: Global, document: &'a Document) -> Result<NamePlaces<'a>, Memory>
    ensures { IfOk result (λ places. get_name places ≡ fragment_named (document_view document.now)) }
{
    let mut places = HashMap::new(alloc);
    for (at, definition) in document.definitions.iter().enumerate() {
        note_fragment(&mut places, definition, at)?;
    }
    Ok(places)
}

/// The place of the fragment of this name.
pub fn fragment_place(places: &NamePlaces<'_>, name: &Txt) -> Option<usize>
    ensures { result ≡ get_name places.now name.now }
{
    places.get(name.as_str()).copied()
}

// The fragment that a node spreads.
fn spread_target(places: &NamePlaces<'_>, node: &Node<'_>) -> Option<usize>
    ensures { result ≡ spread_target (get_name places.now) (node_view node.now) }
{
    match node {
        Node::Spread(spread, _) => fragment_place(places, &spread.name),
        _ => None,
    }
}

// Adds a place, if there is one.
fn push_target(targets: &mut Vec<usize>, target: Option<usize>) -> Result<(), Memory>
    ensures { OnOk result (targets.new.items ≡ targets.old.items ++ option_to_list target) }
{
    if let Some(target) = target {
        targets.push(target)?;
    }
    Ok(())
}

// The fragments that some nodes spread.
fn spread_targets(
    alloc: Global,
    places: &NamePlaces<'_>,
    nodes: &[Node<'_>],
) -> Result<Vec<usize>, Memory>
    ensures { IfOk result (λ targets. targets.items ≡ spread_targets (get_name places.now) (map node_view nodes.now)) }
{
    let mut targets = Vec::new(alloc);
    for node in nodes {
        push_target(&mut targets, spread_target(places, node))?;
    }
    Ok(targets)
}

/// The fragments that each part of a document spreads, by their places among the definitions.
pub fn graph_of(
    alloc: Global,
    places: &NamePlaces<'_>,
    parts: &[Part<'_>],
) -> Result<Vec<Vec<usize>>, Memory>
    ensures { IfOk result (λ graph. graph_view graph.items ≡ graph_of (get_name places.now) (map part_view parts.now)) }
{
    let mut graph = Vec::new(alloc);
    for part in parts {
        graph.push(spread_targets(alloc, places, &part.nodes)?)?;
    }
    Ok(graph)
}
