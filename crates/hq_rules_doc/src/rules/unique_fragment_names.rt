//! 5.5.1.1 Fragment Name Uniqueness: a fragment whose name an earlier one has.
ghost use Rattle.std.specs.Prelude.{◌≡◌, ◌++◌, map, IfOk, OnOk};
ghost use Rattle.std.specs.List.{filter_map};
ghost use Rattle.std.specs.Option.{option_to_list};
ghost use Rattle.hq_gql_tree.specs.Documents.{definition_view};
ghost use Rattle.hq_gql_tree.specs.View.{document_view};
ghost use Rattle.hq_gql_nodes.specs.Names.{name_view};
ghost use Rattle.hq_rules_doc.specs.Operations.{fragment_name, unique_fragment_names};

use hq_base::Memory;
use hq_gql_nodes::{NameAt, least_repeat};
use hq_gql_tree::{Definition, Document};
use std::alloc::Global;

// Adds the name of a definition, if it is a fragment.
fn push_fragment<'a>(names: &mut Vec<NameAt<'a>>, definition: &'a Definition) -> Result<(), Memory>
    ensures { OnOk result (map name_view names.new.items ≡ map name_view names.old.items ++ option_to_list (fragment_name (definition_view definition.now))) }
{
    if let Definition::Fragment(fragment) = definition {
        names.push(NameAt {
            name: fragment.name.as_str(),
            at: fragment.at,
        })?;
    }
    Ok(())
}

fn fragment_names<'a>(alloc: Global, document: &'a Document) -> Result<Vec<NameAt<'a>>, Memory>
    ensures { IfOk result (λ names. map name_view names.items ≡ filter_map fragment_name (document_view document.now)) }
{
    let mut names = Vec::new(alloc);
    for definition in &document.definitions {
        push_fragment(&mut names, definition)?;
    }
    Ok(names)
}

/// The least place at which a document violates the rule.
pub fn unique_fragment_names(alloc: Global, document: &Document) -> Result<Option<u64>, Memory>
    ensures { IfOk result (λ place. place ≡ unique_fragment_names (document_view document.now)) }
{
    let names = fragment_names(alloc, document)?;
    least_repeat(alloc, &names)
}
