//! 5.5.1.3 Fragments on Composite Types: a type condition that names no object type.
ghost use Rattle.std.specs.Prelude.{◌≡◌};
ghost use Rattle.hq_schema.specs.Schema.{schema_view};
ghost use Rattle.hq_gql_nodes.specs.Nodes.{node_view};
ghost use Rattle.hq_rules_doc.specs.NodeRules.{fragments_on_composite_types};

use hq_gql_nodes::{Node, at_if, object_named};
use hq_schema::Schema;

pub fn fragments_on_composite_types(schema: &Schema, node: &Node<'_>) -> Option<u64>
    ensures { result ≡ fragments_on_composite_types (schema_view schema.now) (node_view node.now) }
{
    match node {
        Node::Condition(cond) => at_if(object_named(schema, &cond.name).is_none(), cond.at),
        _ => None,
    }
}
