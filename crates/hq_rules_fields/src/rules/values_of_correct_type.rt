//! 5.6.1 Values of Correct Type: a value that its place does not take.
ghost use Rattle.std.specs.Prelude.{◌≡◌, option_map};
ghost use Rattle.hq_schema.specs.Schema.{schema_view};
ghost use Rattle.hq_gql_tree.specs.Values.{value_view};
ghost use Rattle.hq_gql_nodes.specs.Known.{place_view};
ghost use Rattle.hq_gql_nodes.specs.Nodes.{node_view};
ghost use Rattle.hq_rules_fields.specs.NodeRules.{is_float, is_wrong_value, values_of_correct_type};

use crate::literals::takes;
use hq_gql_nodes::{Node, ValuePlace, at_if};
use hq_gql_tree::Value;
use hq_schema::Schema;

fn is_float(value: &Value) -> bool
    ensures { result ≡ is_float (value_view value.now) }
{
    matches!(value, Value::Float(_))
}

fn is_wrong_value(schema: &Schema, place: Option<ValuePlace<'_>>, value: &Value) -> bool
    ensures { result ≡ is_wrong_value (schema_view schema.now) (option_map place_view place.entry) (value_view value.now) }
{
    match place {
        Some(place) => !takes(schema, place.ty, value),
        None => is_float(value),
    }
}

pub fn values_of_correct_type(schema: &Schema, node: &Node<'_>) -> Option<u64>
    ensures { result ≡ values_of_correct_type (schema_view schema.now) (node_view node.now) }
{
    match node {
        Node::Value(placed, place) => {
            at_if(is_wrong_value(schema, *place, &placed.value), placed.at)
        }
        _ => None,
    }
}
