//! 5.2.1.1 Operation Name Uniqueness: an operation whose name an earlier one has.
ghost use Rattle.std.specs.Prelude.{◌≡◌, ◌++◌, map, IfOk, OnOk};
ghost use Rattle.std.specs.List.{filter_map};
ghost use Rattle.std.specs.Option.{option_to_list};
ghost use Rattle.hq_gql_tree.specs.Documents.{operation as operation_tree, operation_view, definition_view};
ghost use Rattle.hq_gql_tree.specs.View.{document_view};
ghost use Rattle.hq_gql_nodes.specs.Names.{name_view};
ghost use Rattle.hq_rules_doc.specs.Operations.{operation_name, unique_operation_names};

use hq_base::Memory;
use hq_gql_nodes::{NameAt, least_repeat};
use hq_gql_tree::{Definition, Document, Operation};
use std::alloc::Global;

// Adds the name of an operation, if it has one.
fn push_name<'a>(names: &mut Vec<NameAt<'a>>, operation: &'a Operation) -> Result<(), Memory>
    ensures { OnOk result (map name_view names.new.items ≡ map name_view names.old.items ++ option_to_list (operation_name (operation_tree (operation_view operation.now)))) }
{
    if let Some(name) = &operation.name {
        names.push(NameAt {
            name: name.as_str(),
            at: operation.at,
        })?;
    }
    Ok(())
}

// Adds the name of a definition, if it is an operation that has one.
fn push_operation<'a>(names: &mut Vec<NameAt<'a>>, definition: &'a Definition) -> Result<(), Memory>
    ensures { OnOk result (map name_view names.new.items ≡ map name_view names.old.items ++ option_to_list (operation_name (definition_view definition.now))) }
{
    match definition {
        Definition::Operation(operation) => push_name(&mut *names, operation),
        Definition::Fragment(_) => Ok(()),
    }
}

fn operation_names<'a>(alloc: Global, document: &'a Document) -> Result<Vec<NameAt<'a>>, Memory>
    ensures { IfOk result (λ names. map name_view names.items ≡ filter_map operation_name (document_view document.now)) }
{
    let mut names = Vec::new(alloc);
    for definition in &document.definitions {
        push_operation(&mut names, definition)?;
    }
    Ok(names)
}

/// The least place at which a document violates the rule.
pub fn unique_operation_names(alloc: Global, document: &Document) -> Result<Option<u64>, Memory>
    ensures { IfOk result (λ place. place ≡ unique_operation_names (document_view document.now)) }
{
    let names = operation_names(alloc, document)?;
    least_repeat(alloc, &names)
}
