//! 5.7.1 Directives Are Defined: a directive that is not known.
ghost use Rattle.std.specs.Prelude.{◌≡◌};
ghost use Rattle.hq_gql_nodes.specs.Nodes.{node_view};
ghost use Rattle.hq_rules_doc.specs.NodeRules.{known_directives};

use hq_gql_nodes::{Node, at_if, is_condition};

pub fn known_directives(node: &Node<'_>) -> Option<u64>
    ensures { result ≡ known_directives (node_view node.now) }
{
    match node {
        Node::Directive(directive, _) => at_if(!is_condition(&directive.name), directive.at),
        _ => None,
    }
}
