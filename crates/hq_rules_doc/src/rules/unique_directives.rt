//! 5.7.3 Directives Are Unique Per Location: a directive whose name an earlier one at the same place has.
ghost use Rattle.std.specs.Prelude.{◌≡◌, map, IfOk};
ghost use Rattle.hq_gql_tree.specs.Values.{directive_view};
ghost use Rattle.hq_gql_nodes.specs.Names.{name_view, least_repeat};
ghost use Rattle.hq_gql_nodes.specs.Nodes.{node_view};
ghost use Rattle.hq_rules_doc.specs.NodeRules.{directive_name, unique_directives};

use hq_base::Memory;
use hq_gql_nodes::{NameAt, Node, least_repeat};
use hq_gql_tree::Directive;
use std::alloc::Global;

fn directive_names<'a>(
    alloc: Global,
    directives: &'a [Directive],
) -> Result<Vec<NameAt<'a>>, Memory>
    ensures { IfOk result (λ names. map name_view names.items ≡ map directive_name (map directive_view directives.now)) }
{
    let mut names = Vec::new(alloc);
    for directive in directives {
        names.push(NameAt {
            name: directive.name.as_str(),
            at: directive.at,
        })?;
    }
    Ok(names)
}

fn repeated(alloc: Global, directives: &[Directive]) -> Result<Option<u64>, Memory>
    ensures { IfOk result (λ place. place ≡ least_repeat (map directive_name (map directive_view directives.now))) }
{
    let names = directive_names(alloc, directives)?;
    least_repeat(alloc, &names)
}

pub fn unique_directives(alloc: Global, node: &Node<'_>) -> Result<Option<u64>, Memory>
    ensures { IfOk result (λ place. place ≡ unique_directives (node_view node.now)) }
{
    match node {
        Node::Directives(directives) => repeated(alloc, directives),
        _ => Ok(None),
    }
}
