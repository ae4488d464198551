//! The rules, one module each, named as graphql-js names them; it has those of input objects within that of values.
ghost use Rattle.std.specs.Prelude.{◌≡◌, map, IfOk};
ghost use Rattle.hq_schema.specs.Schema.{schema_view};
ghost use Rattle.hq_gql_nodes.specs.Least.{least_of};
ghost use Rattle.hq_gql_nodes.specs.Nodes.{node_view, part_view};
ghost use Rattle.hq_rules_fields.specs.NodeRules.{node_place, rule_place};

mod fields_on_correct_type;
mod known_argument_names;
mod known_input_fields;
mod provided_required_arguments;
mod required_input_fields;
mod scalar_leafs;
mod unique_argument_names;
mod unique_input_fields;
mod values_of_correct_type;

use fields_on_correct_type::fields_on_correct_type;
use hq_base::Memory;
use hq_gql_nodes::{Node, Part, earlier};
use hq_schema::Schema;
use known_argument_names::known_argument_names;
use known_input_fields::known_input_fields;
use provided_required_arguments::provided_required_arguments;
use required_input_fields::required_input_fields;
use scalar_leafs::scalar_leafs;
use std::alloc::Global;
use unique_argument_names::unique_argument_names;
use unique_input_fields::unique_input_fields;
use values_of_correct_type::values_of_correct_type;

/// A rule that looks at one node at a time.
#[derive(Clone, Copy)]
pub enum NodeRule {
    FieldsOnCorrectType,
    ScalarLeafs,
    KnownArgumentNames,
    UniqueArgumentNames,
    ProvidedRequiredArguments,
    ValuesOfCorrectType,
    KnownInputFields,
    UniqueInputFields,
    RequiredInputFields,
}

// The place at which a node violates a rule.
fn node_place(
    alloc: Global,
    rule: NodeRule,
    schema: &Schema,
    node: &Node<'_>,
) -> Result<Option<u64>, Memory>
    ensures { IfOk result (λ place. place ≡ node_place rule (schema_view schema.now) (node_view node.now)) }
{
    match rule {
        NodeRule::FieldsOnCorrectType => Ok(fields_on_correct_type(schema, node)),
        NodeRule::ScalarLeafs => Ok(scalar_leafs(schema, node)),
        NodeRule::KnownArgumentNames => Ok(known_argument_names(node)),
        NodeRule::UniqueArgumentNames => unique_argument_names(alloc, node),
        NodeRule::ProvidedRequiredArguments => Ok(provided_required_arguments(schema, node)),
        NodeRule::ValuesOfCorrectType => Ok(values_of_correct_type(schema, node)),
        NodeRule::KnownInputFields => Ok(known_input_fields(schema, node)),
        NodeRule::UniqueInputFields => unique_input_fields(alloc, node),
        NodeRule::RequiredInputFields => Ok(required_input_fields(schema, node)),
    }
}

#[tactic(auto, using(hq_gql_nodes::proofs::Lesser::earlier_none, hq_gql_nodes::proofs::Lesser::earlier_assoc))]
fn least_in(
    alloc: Global,
    rule: NodeRule,
    schema: &Schema,
    nodes: &[Node<'_>],
) -> Result<Option<u64>, Memory>
    ensures { IfOk result (λ place. place ≡ least_of (node_place rule (schema_view schema.now)) (map node_view nodes.now)) }
{
    let mut least = None;
    for node in nodes {
        let place = node_place(alloc, rule, schema, node)?;
        least = earlier(least, place);
    }
    Ok(least)
}

impl NodeRule {
    /// The least place at which a document violates the rule.
    #[tactic(auto, using(hq_gql_nodes::proofs::Lesser::earlier_none, hq_gql_nodes::proofs::Lesser::earlier_assoc))]
    pub fn place(
        self,
        alloc: Global,
        schema: &Schema,
        parts: &[Part<'_>],
    ) -> Result<Option<u64>, Memory>
        ensures { IfOk result (λ place. place ≡ rule_place self (schema_view schema.now) (map part_view parts.now)) }
    {
        let mut least = None;
        for part in parts {
            let place = least_in(alloc, self, schema, &part.nodes)?;
            least = earlier(least, place);
        }
        Ok(least)
    }
}
