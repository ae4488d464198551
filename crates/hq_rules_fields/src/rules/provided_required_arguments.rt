//! 5.4.2.1 Required Arguments: a field or a directive without a required argument, or with null for it.
ghost use Rattle.std.specs.Prelude.{◌≡◌, false, map, option_map};
ghost use Rattle.std.specs.Option.{option_map_or};
ghost use Rattle.hq_schema.specs.Schema.{arg_view, schema_view};
ghost use Rattle.hq_gql_tree.specs.Values.{argument_view};
ghost use Rattle.hq_gql_nodes.specs.Nodes.{node_view};
ghost use Rattle.hq_rules_fields.specs.NodeRules.{lacks_any, provided_required_arguments};

use crate::required::lacks_any;
use hq_gql_nodes::{Node, args_of_directive, args_of_field, at_if};
use hq_gql_tree::Argument;
use hq_schema::{ArgDefList, Schema};

fn is_wrong(given: &[Argument], args: Option<&ArgDefList>) -> bool
    ensures { result ≡ option_map_or (lacks_any (map argument_view given.now)) (option_map (λ defs. map arg_view defs.now) args.entry) false }
{
    match args {
        Some(args) => lacks_any(given, args.as_slice()),
        None => false,
    }
}

pub fn provided_required_arguments(schema: &Schema, node: &Node<'_>) -> Option<u64>
    ensures { result ≡ provided_required_arguments (schema_view schema.now) (node_view node.now) }
{
    match node {
        Node::Field(field, parent) => {
            let args = args_of_field(schema, *parent, &field.name);
            at_if(is_wrong(&field.args, args), field.at)
        }
        Node::Directive(directive, _) => {
            let args = args_of_directive(schema, &directive.name);
            at_if(is_wrong(&directive.args, args), directive.at)
        }
        _ => None,
    }
}
