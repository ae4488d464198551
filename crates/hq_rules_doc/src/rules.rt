//! The rules, one module each, named as graphql-js names them.
ghost use Rattle.std.specs.Prelude.{◌≡◌, map, IfOk};
ghost use Rattle.hq_schema.specs.Schema.{schema_view};
ghost use Rattle.hq_gql_tree.specs.View.{document_view};
ghost use Rattle.hq_gql_nodes.specs.Least.{least_of};
ghost use Rattle.hq_gql_nodes.specs.Names.{get_name};
ghost use Rattle.hq_gql_nodes.specs.Nodes.{node_view, part_view};
ghost use Rattle.hq_rules_doc.specs.NodeRules.{node_place, rule_place};

mod directives_in_locations;
mod fragments_on_composite_types;
mod known_directives;
mod known_fragment_names;
mod known_type_names;
pub mod lone_anonymous_operation;
mod possible_fragment_spreads;
pub mod single_field_subscriptions;
mod unique_directives;
pub mod unique_fragment_names;
pub mod unique_operation_names;
pub mod unique_variable_names;
mod variables_are_input_types;

use directives_in_locations::directives_in_locations;
use fragments_on_composite_types::fragments_on_composite_types;
use hq_base::Memory;
use hq_gql_nodes::{NamePlaces, Node, Part, earlier};
use hq_gql_tree::Document;
use hq_schema::Schema;
use known_directives::known_directives;
use known_fragment_names::known_fragment_names;
use known_type_names::known_type_names;
use possible_fragment_spreads::possible_fragment_spreads;
use std::alloc::Global;
use unique_directives::unique_directives;
use variables_are_input_types::variables_are_input_types;

/// A rule that looks at one node at a time.
#[derive(Clone, Copy)]
pub enum NodeRule {
    KnownTypeNames,
    FragmentsOnCompositeTypes,
    KnownFragmentNames,
    PossibleFragmentSpreads,
    KnownDirectives,
    DirectivesInLocations,
    UniqueDirectives,
    VariablesAreInputTypes,
}

// The place at which a node violates a rule.
fn node_place(
    alloc: Global,
    rule: NodeRule,
    schema: &Schema,
    document: &Document,
    places: &NamePlaces<'_>,
    node: &Node<'_>,
) -> Result<Option<u64>, Memory>
    ensures { IfOk result (λ place. place ≡ node_place rule (schema_view schema.now) (document_view document.now) (get_name places.now) (node_view node.now)) }
{
    match rule {
        NodeRule::KnownTypeNames => Ok(known_type_names(schema, node)),
        NodeRule::FragmentsOnCompositeTypes => Ok(fragments_on_composite_types(schema, node)),
        NodeRule::KnownFragmentNames => Ok(known_fragment_names(places, node)),
        NodeRule::PossibleFragmentSpreads => {
            Ok(possible_fragment_spreads(schema, document, places, node))
        }
        NodeRule::KnownDirectives => Ok(known_directives(node)),
        NodeRule::DirectivesInLocations => Ok(directives_in_locations(node)),
        NodeRule::UniqueDirectives => unique_directives(alloc, node),
        NodeRule::VariablesAreInputTypes => Ok(variables_are_input_types(schema, node)),
    }
}

#[tactic(auto, using(hq_gql_nodes::proofs::Lesser::earlier_none, hq_gql_nodes::proofs::Lesser::earlier_assoc))]
fn least_in(
    alloc: Global,
    rule: NodeRule,
    schema: &Schema,
    document: &Document,
    places: &NamePlaces<'_>,
    nodes: &[Node<'_>],
) -> Result<Option<u64>, Memory>
    ensures { IfOk result (λ place. place ≡ least_of (node_place rule (schema_view schema.now) (document_view document.now) (get_name places.now)) (map node_view nodes.now)) }
{
    let mut least = None;
    for node in nodes {
        let place = node_place(alloc, rule, schema, document, places, node)?;
        least = earlier(least, place);
    }
    Ok(least)
}

impl NodeRule {
    /// The least place at which a document violates the rule.
    #[tactic(auto, using(hq_gql_nodes::proofs::Lesser::earlier_none, hq_gql_nodes::proofs::Lesser::earlier_assoc))]
    pub fn place(
        self,
        alloc: Global,
        schema: &Schema,
        document: &Document,
        places: &NamePlaces<'_>,
        parts: &[Part<'_>],
    ) -> Result<Option<u64>, Memory>
        ensures { IfOk result (λ place. place ≡ rule_place self (schema_view schema.now) (document_view document.now) (get_name places.now) (map part_view parts.now)) }
    {
        let mut least = None;
        for part in parts {
            let place = least_in(alloc, self, schema, document, places, &part.nodes)?;
            least = earlier(least, place);
        }
        Ok(least)
    }
}
