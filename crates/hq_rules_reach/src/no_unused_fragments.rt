//! 5.5.1.4 Fragments Must Be Used: a fragment that no spread of the document names.
ghost use Rattle.std.specs.Prelude.{◌≡◌, ◌||◌, ℕ, List, map, IfOk, OnOk};
ghost use Rattle.std.specs.List.{list_any};
ghost use Rattle.hq_gql_tree.specs.Documents.{definition_view};
ghost use Rattle.hq_gql_nodes.specs.Least.{least_of};
ghost use Rattle.hq_gql_tree.specs.View.{document_view};
ghost use Rattle.hq_gql_nodes.specs.Names.{has_name};
ghost use Rattle.hq_gql_nodes.specs.Nodes.{node_view, part_view};
ghost use Rattle.hq_rules_reach.specs.Spreads.{spreads, is_spread, unused_by, no_unused_fragments};

use hq_base::Memory;
use hq_gql_nodes::{Names, Node, Part, at_if, earlier, note};
use hq_gql_tree::{Definition, Document};
use std::alloc::Global;
use std::collections::HashMap;

// Notes the name that a node spreads.
fn note_spread<'a>(names: &mut Names<'a>, node: &Node<'a>) -> Result<(), Memory>
    ensures { OnOk result ((q : List ℕ) → has_name names.new q ≡ (spreads q (node_view node.now) || has_name names.old q)) }
{
    match node {
        Node::Spread(spread, _) => {
            note(&mut *names, spread.name.as_str())?;
            Ok(())
        }
        _ => Ok(()),
    }
}

// Notes the names that some nodes spread.
fn note_spreads<'a>(names: &mut Names<'a>, nodes: &[Node<'a>]) -> Result<(), Memory>
    ensures { OnOk result ((q : List ℕ) → has_name names.new q ≡ (list_any (spreads q) (map node_view nodes.now) || has_name names.old q)) }
{
    for node in nodes {
        note_spread(&mut *names, node)?;
    }
    Ok(())
}

// The names that are spread.
fn spread_names<'a>(alloc: Global, parts: &[Part<'a>]) -> Result<Names<'a>, Memory>
    ensures { IfOk result (λ names. (q : List ℕ) → has_name names q ≡ is_spread (map part_view parts.now) q) }
{
    let mut names = HashMap::new(alloc);
    for part in parts {
        note_spreads(&mut names, &part.nodes)?;
    }
    Ok(names)
}

fn unused_fragment(names: &Names<'_>, definition: &Definition) -> Option<u64>
    ensures { result ≡ unused_by (has_name names.now) (definition_view definition.now) }
{
    match definition {
        Definition::Operation(_) => None,
        Definition::Fragment(fragment) => {
            at_if(!names.contains_key(fragment.name.as_str()), fragment.at)
        }
    }
}

#[tactic(auto, using(hq_gql_nodes::proofs::Lesser::earlier_none, hq_gql_nodes::proofs::Lesser::earlier_assoc))]
fn least_unused(names: &Names<'_>, document: &Document) -> Option<u64>
    ensures { result ≡ least_of (unused_by (has_name names.now)) (document_view document.now) }
{
    let mut least = None;
    for definition in &document.definitions {
        least = earlier(least, unused_fragment(names, definition));
    }
    least
}

/// The least place at which a document violates the rule.
pub fn no_unused_fragments(
    alloc: Global,
    document: &Document,
    parts: &[Part<'_>],
) -> Result<Option<u64>, Memory>
    ensures { IfOk result (λ place. place ≡ no_unused_fragments (document_view document.now) (map part_view parts.now)) }
{
    let names = spread_names(alloc, parts)?;
    Ok(least_unused(&names, document))
}
