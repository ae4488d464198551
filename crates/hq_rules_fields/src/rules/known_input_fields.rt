//! 5.6.2 Input Object Field Names: a member that its input object lacks.
ghost use Rattle.std.specs.Prelude.{◌≡◌, false, is_none};
ghost use Rattle.std.specs.Option.{option_map_or};
ghost use Rattle.hq_schema.specs.Schema.{schema_view};
ghost use Rattle.hq_schema.specs.Look.{input_field_of};
ghost use Rattle.hq_gql_nodes.specs.Nodes.{node_view};
ghost use Rattle.hq_rules_fields.specs.NodeRules.{known_input_fields};

use hq_base::Txt;
use hq_gql_nodes::{Node, at_if};
use hq_schema::{Schema, TypeId};

fn is_lacking(schema: &Schema, input: Option<usize>, name: &Txt) -> bool
    ensures { result ≡ option_map_or (λ t. is_none (input_field_of (schema_view schema.now) t name.now)) input false }
{
    match input {
        Some(t) => schema.input_field(TypeId::new(t), name).is_none(),
        None => false,
    }
}

pub fn known_input_fields(schema: &Schema, node: &Node<'_>) -> Option<u64>
    ensures { result ≡ known_input_fields (schema_view schema.now) (node_view node.now) }
{
    match node {
        Node::Member(member, input) => at_if(is_lacking(schema, *input, &member.name), member.at),
        _ => None,
    }
}
