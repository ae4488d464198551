//! 5.7.2 Directives Are In Valid Locations: a known directive where it may not stand.
ghost use Rattle.std.specs.Prelude.{◌≡◌, ◌&&◌, not};
ghost use Rattle.hq_gql_nodes.specs.Known.{is_condition};
ghost use Rattle.hq_gql_nodes.specs.Nodes.{node_view};
ghost use Rattle.hq_rules_doc.specs.NodeRules.{takes_condition, directives_in_locations};

use hq_base::Txt;
use hq_gql_nodes::{Location, Node, at_if, is_condition};

// Whether `skip` and `include` may stand here.
fn takes_condition(location: Location) -> bool
    ensures { result ≡ takes_condition location }
{
    match location {
        Location::Field | Location::FragmentSpread | Location::InlineFragment => true,
        Location::Query | Location::Mutation | Location::Subscription => false,
        Location::FragmentDefinition | Location::VariableDefinition => false,
    }
}

fn is_misplaced(name: &Txt, location: Location) -> bool
    ensures { result ≡ (is_condition name.now && not (takes_condition location)) }
{
    is_condition(name) && !takes_condition(location)
}

pub fn directives_in_locations(node: &Node<'_>) -> Option<u64>
    ensures { result ≡ directives_in_locations (node_view node.now) }
{
    match node {
        Node::Directive(directive, location) => {
            at_if(is_misplaced(&directive.name, *location), directive.at)
        }
        _ => None,
    }
}
