//! 5.3.3 Leaf Field Selections: a leaf with a selection set, or an object without one.
ghost use Rattle.std.specs.Prelude.{◌≡◌, false, is_some, map};
ghost use Rattle.std.specs.Option.{option_map_or};
ghost use Rattle.hq_schema.specs.Schema.{base, schema_view};
ghost use Rattle.hq_gql_tree.specs.Selections.{selection_view, selections_of};
ghost use Rattle.hq_gql_nodes.specs.Known.{known_field, object_at};
ghost use Rattle.hq_gql_nodes.specs.Nodes.{node_view};
ghost use Rattle.hq_rules_fields.specs.NodeRules.{has_selections, is_wrong_leaf, scalar_leafs};

use hq_base::Txt;
use hq_gql_nodes::{Node, at_if, known_field, object_at};
use hq_gql_tree::Selection;
use hq_schema::Schema;

fn has_selections(selections: &[Selection]) -> bool
    ensures { result ≡ has_selections (selections_of (map selection_view selections.now)) }
{
    match selections {
        [_, ..] => true,
        [] => false,
    }
}

fn is_wrong_leaf(is_object: bool, has_selections: bool) -> bool
    ensures { result ≡ is_wrong_leaf is_object has_selections }
{
    if is_object {
        !has_selections
    } else {
        has_selections
    }
}

// Whether a field of a name that has selections, or has none, should not.
fn is_wrong(schema: &Schema, parent: Option<usize>, name: &Txt, has_selections: bool) -> bool
    ensures { result ≡ option_map_or (λ f. is_wrong_leaf (is_some (object_at (schema_view schema.now) (base f.ty))) has_selections) (known_field (schema_view schema.now) parent name.now) false }
{
    match known_field(schema, parent, name) {
        Some(field) => is_wrong_leaf(object_at(schema, field.ty.base()).is_some(), has_selections),
        None => false,
    }
}

pub fn scalar_leafs(schema: &Schema, node: &Node<'_>) -> Option<u64>
    ensures { result ≡ scalar_leafs (schema_view schema.now) (node_view node.now) }
{
    match node {
        Node::Field(field, parent) => {
            let has_selections = has_selections(&field.selections);
            at_if(
                is_wrong(schema, *parent, &field.name, has_selections),
                field.at,
            )
        }
        _ => None,
    }
}
