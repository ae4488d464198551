//! 5.6.4 Input Object Required Fields: an object without a required input field, or with null for it.
ghost use Rattle.std.specs.Prelude.{◌≡◌, false, map, option_map};
ghost use Rattle.std.specs.Option.{option_map_or};
ghost use Rattle.hq_schema.specs.Schema.{schema_view};
ghost use Rattle.hq_gql_tree.specs.Values.{value_view, argument_view};
ghost use Rattle.hq_gql_nodes.specs.Known.{place_view, input_of};
ghost use Rattle.hq_gql_nodes.specs.Nodes.{node_view};
ghost use Rattle.hq_rules_fields.specs.NodeRules.{lacks_input, lacks_at, object_members, required_input_fields};

use crate::literals::object_members;
use crate::required::lacks_any;
use hq_gql_nodes::{Node, ValuePlace, at_if, input_of};
use hq_gql_tree::{Argument, Value};
use hq_schema::{Schema, TypeId};

fn lacks_input(schema: &Schema, members: &[Argument], t: usize) -> bool
    ensures { result ≡ lacks_input (schema_view schema.now) (map argument_view members.now) t }
{
    match schema.type_at(TypeId::new(t)) {
        Some(def) => lacks_any(members, def.inputs.as_slice()),
        None => false,
    }
}

// Whether the members of an object at a place lack a required input field.
fn lacks_at(schema: &Schema, members: &[Argument], place: Option<ValuePlace<'_>>) -> bool
    ensures { result ≡ option_map_or (lacks_input (schema_view schema.now) (map argument_view members.now)) (input_of (schema_view schema.now) (option_map place_view place.entry)) false }
{
    match input_of(schema, place) {
        Some(t) => lacks_input(schema, members, t),
        None => false,
    }
}

fn is_wrong(schema: &Schema, value: &Value, place: Option<ValuePlace<'_>>) -> bool
    ensures { result ≡ option_map_or (lacks_at (schema_view schema.now) (option_map place_view place.entry)) (object_members (value_view value.now)) false }
{
    match object_members(value) {
        Some(members) => lacks_at(schema, members, place),
        None => false,
    }
}

pub fn required_input_fields(schema: &Schema, node: &Node<'_>) -> Option<u64>
    ensures { result ≡ required_input_fields (schema_view schema.now) (node_view node.now) }
{
    match node {
        Node::Value(placed, place) => at_if(is_wrong(schema, &placed.value, *place), placed.at),
        _ => None,
    }
}
