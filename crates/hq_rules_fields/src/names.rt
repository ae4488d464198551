//! Arguments and members whose names stand twice.
ghost use Rattle.std.specs.Prelude.{◌≡◌, map, IfOk};
ghost use Rattle.hq_gql_tree.specs.Values.{argument_view};
ghost use Rattle.hq_gql_nodes.specs.Names.{name_view, least_repeat};
ghost use Rattle.hq_rules_fields.specs.NodeRules.{argument_name};

use hq_base::Memory;
use hq_gql_nodes::{NameAt, least_repeat};
use hq_gql_tree::Argument;
use std::alloc::Global;

fn argument_names<'a>(alloc: Global, arguments: &'a [Argument]) -> Result<Vec<NameAt<'a>>, Memory>
    ensures { IfOk result (λ names. map name_view names.items ≡ map argument_name (map argument_view arguments.now)) }
{
    let mut names = Vec::new(alloc);
    for argument in arguments {
        names.push(NameAt {
            name: argument.name.as_str(),
            at: argument.at,
        })?;
    }
    Ok(names)
}

/// The least place of an argument whose name an earlier one has.
pub fn repeated(alloc: Global, arguments: &[Argument]) -> Result<Option<u64>, Memory>
    ensures { IfOk result (λ place. place ≡ least_repeat (map argument_name (map argument_view arguments.now))) }
{
    let names = argument_names(alloc, arguments)?;
    least_repeat(alloc, &names)
}
