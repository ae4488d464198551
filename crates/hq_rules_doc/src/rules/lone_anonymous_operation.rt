//! 5.2.2.1 Lone Anonymous Operation: an operation without a name beside another operation.
ghost use Rattle.std.specs.Prelude.{◌≡◌, count_by};
ghost use Rattle.hq_gql_nodes.specs.Least.{least_of};
ghost use Rattle.hq_gql_tree.specs.Documents.{definition_view};
ghost use Rattle.hq_gql_tree.specs.View.{document_view};
ghost use Rattle.hq_rules_doc.specs.Operations.{is_operation, anonymous_place, lone_anonymous_operation};

use hq_gql_nodes::{at_if, earlier};
use hq_gql_tree::{Definition, Document};

fn is_operation(definition: &Definition) -> bool
    ensures { result ≡ is_operation (definition_view definition.now) }
{
    match definition {
        Definition::Operation(_) => true,
        Definition::Fragment(_) => false,
    }
}

fn count_of_operations(document: &Document) -> usize
    ensures { result ≡ count_by is_operation (document_view document.now) }
{
    let mut count = 0;
    for definition in &document.definitions {
        count += usize::from(is_operation(definition));
    }
    count
}

fn anonymous_place(definition: &Definition) -> Option<u64>
    ensures { result ≡ anonymous_place (definition_view definition.now) }
{
    match definition {
        Definition::Operation(operation) => at_if(operation.name.is_none(), operation.at),
        Definition::Fragment(_) => None,
    }
}

// The least place of an operation without a name.
#[tactic(auto, using(hq_gql_nodes::proofs::Lesser::earlier_none, hq_gql_nodes::proofs::Lesser::earlier_assoc))]
fn least_anonymous(document: &Document) -> Option<u64>
    ensures { result ≡ least_of anonymous_place (document_view document.now) }
{
    let mut least = None;
    for definition in &document.definitions {
        least = earlier(least, anonymous_place(definition));
    }
    least
}

/// The least place at which a document violates the rule.
pub fn lone_anonymous_operation(document: &Document) -> Option<u64>
    ensures { result ≡ lone_anonymous_operation (document_view document.now) }
{
    if count_of_operations(document) > 1 {
        return least_anonymous(document);
    }
    None
}
