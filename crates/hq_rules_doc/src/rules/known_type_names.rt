//! 5.5.1.2 Fragment Spread Type Existence: a type condition that names no type.
ghost use Rattle.std.specs.Prelude.{◌≡◌};
ghost use Rattle.hq_schema.specs.Schema.{schema_view};
ghost use Rattle.hq_gql_nodes.specs.Nodes.{node_view};
ghost use Rattle.hq_rules_doc.specs.NodeRules.{known_type_names};

use hq_gql_nodes::{Node, at_if};
use hq_schema::Schema;

pub fn known_type_names(schema: &Schema, node: &Node<'_>) -> Option<u64>
    ensures { result ≡ known_type_names (schema_view schema.now) (node_view node.now) }
{
    match node {
        Node::Condition(cond) => at_if(schema.type_named(&cond.name).is_none(), cond.at),
        _ => None,
    }
}
