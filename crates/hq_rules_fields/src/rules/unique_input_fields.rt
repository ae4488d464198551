//! 5.6.3 Input Object Field Uniqueness: a member whose name an earlier one of the object has.
ghost use Rattle.std.specs.Prelude.{◌≡◌, IfOk, option_and_then};
ghost use Rattle.hq_gql_tree.specs.Values.{value_view};
ghost use Rattle.hq_gql_nodes.specs.Nodes.{node_view};
ghost use Rattle.hq_rules_fields.specs.NodeRules.{repeated_member, object_members, unique_input_fields};

use crate::literals::object_members;
use crate::names::repeated;
use hq_base::Memory;
use hq_gql_nodes::Node;
use hq_gql_tree::Value;
use std::alloc::Global;

fn repeated_member(alloc: Global, value: &Value) -> Result<Option<u64>, Memory>
    ensures { IfOk result (λ place. place ≡ option_and_then repeated_member (object_members (value_view value.now))) }
{
    match object_members(value) {
        Some(members) => repeated(alloc, members),
        None => Ok(None),
    }
}

pub fn unique_input_fields(alloc: Global, node: &Node<'_>) -> Result<Option<u64>, Memory>
    ensures { IfOk result (λ place. place ≡ unique_input_fields (node_view node.now)) }
{
    match node {
        Node::Value(placed, _) => repeated_member(alloc, &placed.value),
        _ => Ok(None),
    }
}
