//! 5.8.2 Variables Are Input Types: a variable whose type is no input type.
ghost use Rattle.std.specs.Prelude.{◌≡◌, false, option_map};
ghost use Rattle.std.specs.Option.{option_map_or};
ghost use Rattle.hq_schema.specs.Schema.{schema_view, type_ref_view};
ghost use Rattle.hq_gql_nodes.specs.Known.{is_input_type};
ghost use Rattle.hq_gql_nodes.specs.Nodes.{node_view};
ghost use Rattle.hq_rules_doc.specs.NodeRules.{variables_are_input_types};

use hq_gql_nodes::{Node, at_if, is_input_type};
use hq_schema::{Schema, TypeRef};

fn is_input(schema: &Schema, ty: Option<&TypeRef>) -> bool
    ensures { result ≡ option_map_or (is_input_type (schema_view schema.now)) (option_map (λ r. type_ref_view r.now) ty.entry) false }
{
    match ty {
        Some(ty) => is_input_type(schema, ty),
        None => false,
    }
}

pub fn variables_are_input_types(schema: &Schema, node: &Node<'_>) -> Option<u64>
    ensures { result ≡ variables_are_input_types (schema_view schema.now) (node_view node.now) }
{
    match node {
        Node::Variable(var_def, ty) => at_if(!is_input(schema, *ty), var_def.at),
        _ => None,
    }
}
