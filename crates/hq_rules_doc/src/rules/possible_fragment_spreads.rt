//! 5.5.2.3 Fragment Spread Is Possible: a spread or an inline fragment on another object type than the one that it stands in.
ghost use Rattle.std.specs.Prelude.{◌≡◌, slice_get, option_map, option_and_then};
ghost use Rattle.hq_schema.specs.Schema.{schema_view};
ghost use Rattle.hq_gql_tree.specs.Documents.{definition_view};
ghost use Rattle.hq_gql_tree.specs.Selections.{inline_view};
ghost use Rattle.hq_gql_tree.specs.View.{document_view};
ghost use Rattle.hq_gql_nodes.specs.Names.{get_name};
ghost use Rattle.hq_gql_nodes.specs.Nodes.{node_view};
ghost use Rattle.hq_rules_doc.specs.NodeRules.{type_of_condition, condition_of, type_of_fragment, are_other, possible_fragment_spreads};

use hq_base::Txt;
use hq_gql_nodes::{NamePlaces, Node, at_if, fragment_place, object_named};
use hq_gql_tree::{Definition, Document, Inline, TypeCond};
use hq_schema::Schema;

fn are_other(left: Option<usize>, right: Option<usize>) -> bool
    ensures { result ≡ are_other left right }
{
    match (left, right) {
        (Some(a), Some(b)) => a != b,
        _ => false,
    }
}

fn condition_of(definition: &Definition) -> Option<&TypeCond>
    ensures { option_map (λ c. c.now) result ≡ condition_of (definition_view definition.now) }
{
    match definition {
        Definition::Operation(_) => None,
        Definition::Fragment(fragment) => Some(&fragment.cond),
    }
}

// The type condition of the definition at a place.
fn condition_at(document: &Document, at: usize) -> Option<&TypeCond>
    ensures { option_map (λ c. c.now) result ≡ option_and_then condition_of (slice_get (document_view document.now) at) }
{
    match document.definitions.get(at) {
        Some(definition) => condition_of(definition),
        None => None,
    }
}

// The object type on which the fragment of a name stands.
fn type_of_fragment(
    schema: &Schema,
    document: &Document,
    places: &NamePlaces<'_>,
    name: &Txt,
) -> Option<usize>
    ensures { result ≡ type_of_fragment (schema_view schema.now) (document_view document.now) (get_name places.now) name.now }
{
    let Some(at) = fragment_place(places, name) else {
        return None;
    };
    match condition_at(document, at) {
        Some(cond) => object_named(schema, &cond.name),
        None => None,
    }
}

// The object type on which an inline fragment stands.
fn type_of_inline(schema: &Schema, inline: &Inline) -> Option<usize>
    ensures { result ≡ type_of_condition (schema_view schema.now) (inline_view inline.now).0.cond }
{
    match &inline.cond {
        Some(cond) => object_named(schema, &cond.name),
        None => None,
    }
}

pub fn possible_fragment_spreads(
    schema: &Schema,
    document: &Document,
    places: &NamePlaces<'_>,
    node: &Node<'_>,
) -> Option<u64>
    ensures { result ≡ possible_fragment_spreads (schema_view schema.now) (document_view document.now) (get_name places.now) (node_view node.now) }
{
    match node {
        Node::Spread(spread, parent) => {
            let found = type_of_fragment(schema, document, places, &spread.name);
            at_if(are_other(*parent, found), spread.at)
        }
        Node::Inline(inline, parent) => {
            let found = type_of_inline(schema, inline);
            at_if(are_other(*parent, found), inline.at)
        }
        _ => None,
    }
}
