//! 5.4.1 Argument Names: an argument that the field or the directive lacks.
ghost use Rattle.std.specs.Prelude.{◌≡◌, false, is_none, map, option_map};
ghost use Rattle.std.specs.Option.{option_map_or};
ghost use Rattle.hq_schema.specs.Schema.{arg_view};
ghost use Rattle.hq_schema.specs.Look.{arg_in};
ghost use Rattle.hq_gql_nodes.specs.Nodes.{node_view};
ghost use Rattle.hq_rules_fields.specs.NodeRules.{known_argument_names};

use hq_base::Txt;
use hq_gql_nodes::{Node, at_if};
use hq_schema::{ArgDefList, arg_named};

fn is_lacking(args: Option<&ArgDefList>, name: &Txt) -> bool
    ensures { result ≡ option_map_or (λ defs. is_none (arg_in defs name.now)) (option_map (λ defs. map arg_view defs.now) args.entry) false }
{
    match args {
        Some(args) => arg_named(args, name).is_none(),
        None => false,
    }
}

pub fn known_argument_names(node: &Node<'_>) -> Option<u64>
    ensures { result ≡ known_argument_names (node_view node.now) }
{
    match node {
        Node::Argument(argument, args) => at_if(is_lacking(*args, &argument.name), argument.at),
        _ => None,
    }
}
