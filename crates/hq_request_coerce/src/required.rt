//! The variables that an operation uses where null can't stand.
ghost use Rattle.std.specs.Prelude.{◌≡◌, [], ◌||◌, ℕ, List, map, IfOk, OnOk, option_map, option_copied, bytes_eq};
ghost use Rattle.std.specs.List.{list_any};
ghost use Rattle.std.specs.Option.{option_to_list};
ghost use Rattle.hq_gql_tree.specs.Values.{placed_view};
ghost use Rattle.hq_gql_nodes.specs.Known.{place_view};
ghost use Rattle.hq_gql_nodes.specs.Names.{has_name};
ghost use Rattle.hq_gql_nodes.specs.Nodes.{node_view, part_view};
ghost use Rattle.hq_gql_nodes.specs.Reach.{graph_view};
ghost use Rattle.hq_request_coerce.specs.Required.{required_in, required_of, required_names, required_at, is_required_in};

use crate::values::is_non_null;
use hq_base::{Memory, Txt};
use hq_gql_nodes::{Names, Node, Part, ValuePlace, note, reached};
use hq_gql_tree::{Placed, Value};
use std::alloc::Global;
use std::collections::HashMap;

// The variable that a value is, where it stands at a place of a type without null.
fn required_in<'a>(placed: &'a Placed, place: Option<ValuePlace<'a>>) -> Option<&'a Txt>
    ensures { option_copied result ≡ required_in (option_map place_view place.entry) (placed_view placed.now).value }
{
    match (place, &placed.value) {
        (Some(place), Value::Variable(name)) if is_non_null(place.ty) => Some(name),
        _ => None,
    }
}

fn required_of<'a>(node: &Node<'a>) -> Option<&'a Txt>
    ensures { option_copied result ≡ required_of (node_view node.now) }
{
    match node {
        Node::Value(placed, place) => required_in(placed, *place),
        _ => None,
    }
}

// Notes the name of the variable that a node uses so, if it uses one.
fn note_node<'a>(names: &mut Names<'a>, node: &Node<'a>) -> Result<(), Memory>
    ensures { OnOk result ((q : List ℕ) → has_name names.new q ≡ (list_any (λ n. bytes_eq n q) (option_to_list (required_of (node_view node.now))) || has_name names.old q)) }
{
    if let Some(name) = required_of(node) {
        note(&mut *names, name.as_str())?;
    }
    Ok(())
}

// Notes the names of the variables that some nodes use so.
fn note_required<'a>(names: &mut Names<'a>, nodes: &[Node<'a>]) -> Result<(), Memory>
    ensures { OnOk result ((q : List ℕ) → has_name names.new q ≡ (has_name names.old q || list_any (λ n. bytes_eq n q) (required_names (map node_view nodes.now)))) }
{
    for node in nodes {
        note_node(&mut *names, node)?;
    }
    Ok(())
}

// The same of the part at a place, none beyond the last.
fn note_part<'a>(names: &mut Names<'a>, parts: &[Part<'a>], place: usize) -> Result<(), Memory>
    ensures { OnOk result ((q : List ℕ) → has_name names.new q ≡ (has_name names.old q || list_any (λ n. bytes_eq n q) (required_at (map part_view parts.now) place))) }
{
    match parts.get(place) {
        Some(part) => note_required(&mut *names, &part.nodes),
        None => Ok(()),
    }
}

// The same of the parts at some places.
fn note_parts<'a>(names: &mut Names<'a>, parts: &[Part<'a>], places: &[usize]) -> Result<(), Memory>
    ensures { OnOk result ((q : List ℕ) → has_name names.new q ≡ (has_name names.old q || list_any (λ place. list_any (λ n. bytes_eq n q) (required_at (map part_view parts.now) place)) places.now)) }
{
    for place in places {
        note_part(&mut *names, parts, *place)?;
    }
    Ok(())
}

/// The names of the variables that the operation at a place, or a fragment that it reaches, uses at a place of a type without
/// null.
pub fn required_names<'a>(
    alloc: Global,
    parts: &[Part<'a>],
    graph: &[Vec<usize>],
    operation: usize,
) -> Result<Names<'a>, Memory>
    ensures { IfOk result (λ names. (q : List ℕ) → has_name names q ≡ is_required_in (map part_view parts.now) (graph_view graph.now) operation q) }
{
    let places = reached(alloc, graph, &[operation])?;
    let mut names = HashMap::new(alloc);
    note_parts(&mut names, parts, &places)?;
    Ok(names)
}
