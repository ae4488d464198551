//! 5.8.1 Variable Uniqueness: a variable whose name an earlier one of the operation has.
ghost use Rattle.std.specs.Prelude.{◌≡◌, map, IfOk};
ghost use Rattle.hq_gql_tree.specs.Documents.{var_def_view, definition_view};
ghost use Rattle.hq_gql_tree.specs.View.{document_view};
ghost use Rattle.hq_gql_nodes.specs.Names.{name_view, least_repeat};
ghost use Rattle.hq_rules_doc.specs.Operations.{variable_name, repeated_variable, unique_variable_names};

use hq_base::Memory;
use hq_gql_nodes::{NameAt, earlier, least_repeat};
use hq_gql_tree::{Definition, Document, VarDef};
use std::alloc::Global;

fn variable_names<'a>(alloc: Global, vars: &'a [VarDef]) -> Result<Vec<NameAt<'a>>, Memory>
    ensures { IfOk result (λ names. map name_view names.items ≡ map variable_name (map var_def_view vars.now)) }
{
    let mut names = Vec::new(alloc);
    for var_def in vars {
        names.push(NameAt {
            name: var_def.name.as_str(),
            at: var_def.at,
        })?;
    }
    Ok(names)
}

fn repeated_among(alloc: Global, vars: &[VarDef]) -> Result<Option<u64>, Memory>
    ensures { IfOk result (λ place. place ≡ least_repeat (map variable_name (map var_def_view vars.now))) }
{
    let names = variable_names(alloc, vars)?;
    least_repeat(alloc, &names)
}

fn repeated_variable(alloc: Global, definition: &Definition) -> Result<Option<u64>, Memory>
    ensures { IfOk result (λ place. place ≡ repeated_variable (definition_view definition.now)) }
{
    match definition {
        Definition::Operation(operation) => repeated_among(alloc, &operation.vars),
        Definition::Fragment(_) => Ok(None),
    }
}

/// The least place at which a document violates the rule.
#[tactic(auto, using(hq_gql_nodes::proofs::Lesser::earlier_none, hq_gql_nodes::proofs::Lesser::earlier_assoc))]
pub fn unique_variable_names(alloc: Global, document: &Document) -> Result<Option<u64>, Memory>
    ensures { IfOk result (λ place. place ≡ unique_variable_names (document_view document.now)) }
{
    let mut least = None;
    for definition in &document.definitions {
        let place = repeated_variable(alloc, definition)?;
        least = earlier(least, place);
    }
    Ok(least)
}
