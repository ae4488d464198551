//! 5.5.2.1 Fragment Spread Target Defined: a spread of a fragment that is not defined.
ghost use Rattle.std.specs.Prelude.{◌≡◌};
ghost use Rattle.hq_gql_nodes.specs.Names.{get_name};
ghost use Rattle.hq_gql_nodes.specs.Nodes.{node_view};
ghost use Rattle.hq_rules_doc.specs.NodeRules.{known_fragment_names};

use hq_gql_nodes::{NamePlaces, Node, at_if, fragment_place};

pub fn known_fragment_names(places: &NamePlaces<'_>, node: &Node<'_>) -> Option<u64>
    ensures { result ≡ known_fragment_names (get_name places.now) (node_view node.now) }
{
    match node {
        Node::Spread(spread, _) => {
            at_if(fragment_place(places, &spread.name).is_none(), spread.at)
        }
        _ => None,
    }
}
