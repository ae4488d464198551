//! Nodes of the arguments of collected fields.
ghost use Rattle.std.specs.Prelude.{◌≡◌, map};
ghost use Rattle.hq_request_collect.specs.FieldNodes.{argument_nodes, seen_nodes, field_nodes, is_bounded};
ghost use Rattle.hq_request_coerce.specs.Variables.{var_view};
ghost use Rattle.hq_request_collect.specs.Size.{less};
ghost use Rattle.hq_request_collect.specs.TreeSeen.{collected_view, trees_of, parts_seen};
ghost use Rattle.hq_gql_tree.specs.Selections.{field_view};

use crate::values::without_members;
use crate::{CollectedField, CollectedList};
use hq_gql_tree::Field;
use hq_request_coerce::VarValues;

// How many nodes may still come behind the arguments of a field.
fn without_arguments(vars: &VarValues, field: &Field, left: usize) -> Option<usize>
    ensures { result ≡ less (argument_nodes (map var_view vars.now) (field_view field.now).0) left }
{
    without_members(vars, &field.args, left)
}

// The same behind a field and what stands below it.
#[cycle(fields)]
fn without_field(vars: &VarValues, field: &CollectedField<'_>, left: usize) -> Option<usize>
    ensures { result ≡ less (seen_nodes (map var_view vars.now) (parts_seen field.now)) left }
{
    let left = without_arguments(vars, field.first(), left)?;
    without_fields(vars, &field.below, left)
}

#[cycle(fields)]
fn without_fields(vars: &VarValues, fields: &CollectedList<'_>, left: usize) -> Option<usize>
    ensures { result ≡ less (field_nodes (map var_view vars.now) (trees_of (map collected_view fields.now.items))) left }
{
    let mut left = left;
    for field in fields {
        left = without_field(vars, field, left)?;
    }
    Some(left)
}

/// Whether the arguments of collected fields have at most 1,048,576 nodes together, with variables put in. It stops at the first
/// node beyond.
pub fn is_bounded(vars: &VarValues, fields: &CollectedList<'_>) -> bool
    ensures { result ≡ is_bounded (map var_view vars.now) (trees_of (map collected_view fields.now.items)) }
{
    without_fields(vars, fields, 1_048_576).is_some()
}
