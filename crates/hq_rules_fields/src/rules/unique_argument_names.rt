//! 5.4.2 Argument Uniqueness: an argument whose name an earlier one there has.
ghost use Rattle.std.specs.Prelude.{◌≡◌, IfOk};
ghost use Rattle.hq_gql_nodes.specs.Nodes.{node_view};
ghost use Rattle.hq_rules_fields.specs.NodeRules.{unique_argument_names};

use crate::names::repeated;
use hq_base::Memory;
use hq_gql_nodes::Node;
use std::alloc::Global;

pub fn unique_argument_names(alloc: Global, node: &Node<'_>) -> Result<Option<u64>, Memory>
    ensures { IfOk result (λ place. place ≡ unique_argument_names (node_view node.now)) }
{
    match node {
        Node::Field(field, _) => repeated(alloc, &field.args),
        Node::Directive(directive, _) => repeated(alloc, &directive.args),
        _ => Ok(None),
    }
}
