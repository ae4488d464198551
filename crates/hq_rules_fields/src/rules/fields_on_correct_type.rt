//! 5.3.1 Field Selections: a field that its parent type lacks.
ghost use Rattle.std.specs.Prelude.{◌≡◌, ◌&&◌, is_some, is_none};
ghost use Rattle.hq_schema.specs.Schema.{schema_view};
ghost use Rattle.hq_gql_nodes.specs.Known.{known_field};
ghost use Rattle.hq_gql_nodes.specs.Nodes.{node_view};
ghost use Rattle.hq_rules_fields.specs.NodeRules.{fields_on_correct_type};

use hq_base::Txt;
use hq_gql_nodes::{Node, at_if, known_field};
use hq_schema::Schema;

fn is_lacking(schema: &Schema, parent: Option<usize>, name: &Txt) -> bool
    ensures { result ≡ (is_some parent && is_none (known_field (schema_view schema.now) parent name.now)) }
{
    parent.is_some() && known_field(schema, parent, name).is_none()
}

pub fn fields_on_correct_type(schema: &Schema, node: &Node<'_>) -> Option<u64>
    ensures { result ≡ fields_on_correct_type (schema_view schema.now) (node_view node.now) }
{
    match node {
        Node::Field(field, parent) => at_if(is_lacking(schema, *parent, &field.name), field.at),
        _ => None,
    }
}
