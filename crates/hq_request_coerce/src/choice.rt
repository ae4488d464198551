//! The operation that a request names.
ghost use Rattle.std.specs.Prelude.{◌≡◌, map, count_by, option_copied, option_map};
ghost use Rattle.std.specs.List.{position_from};
ghost use Rattle.hq_gql_tree.specs.Documents.{definition_view, operation_view};
ghost use Rattle.hq_gql_tree.specs.View.{document_view};
ghost use Rattle.hq_request_coerce.specs.Choice.{operation_in, is_operation, is_operation_named, sole_operation, operation_for, operation_at, if_query, chosen};
ghost use Rattle.hq_request_coerce.specs.Faults.{fault_of};

use crate::OpRef;
use hq_base::Txt;
use hq_gql_tree::{Definition, Document, Fault, OpKind, Operation, RuleId};

/// A fault of a rule, at a place where there is one.
pub fn fault_of(rule: RuleId, at: Option<u64>) -> Fault
    ensures { result ≡ fault_of rule at }
{
    Fault {
        rule,
        at,
        name: None,
        want: None,
    }
}

// The operation that a definition is.
fn operation_in(definition: &Definition) -> Option<&Operation>
    ensures { option_map (λ o. operation_view o.now) result ≡ operation_in (definition_view definition.now) }
{
    match definition {
        Definition::Operation(operation) => Some(operation),
        Definition::Fragment(_) => None,
    }
}

fn is_operation(definition: &Definition) -> bool
    ensures { result ≡ is_operation (definition_view definition.now) }
{
    match definition {
        Definition::Operation(_) => true,
        Definition::Fragment(_) => false,
    }
}

fn is_operation_named(definition: &Definition, name: &Txt) -> bool
    ensures { result ≡ is_operation_named name.now (definition_view definition.now) }
{
    match definition {
        Definition::Operation(
            Operation {
                name: Some(own),
                ..
            },
        ) => *own == *name,
        _ => false,
    }
}

fn operation_count(definitions: &[Definition]) -> usize
    ensures { result ≡ count_by is_operation (map definition_view definitions.now) }
{
    let mut count = 0;
    for definition in definitions {
        count += usize::from(is_operation(definition));
    }
    count
}

fn first_operation(definitions: &[Definition]) -> Option<usize>
    ensures { result ≡ position_from is_operation 0 (map definition_view definitions.now) }
{
    for (at, definition) in definitions.iter().enumerate() {
        if is_operation(definition) {
            return Some(at);
        }
    }
    None
}

fn operation_named(definitions: &[Definition], name: &Txt) -> Option<usize>
    ensures { result ≡ position_from (is_operation_named name.now) 0 (map definition_view definitions.now) }
{
    for (at, definition) in definitions.iter().enumerate() {
        if is_operation_named(definition, name) {
            return Some(at);
        }
    }
    None
}

// The one operation, where there is exactly one.
fn sole_operation(definitions: &[Definition]) -> Option<usize>
    ensures { result ≡ sole_operation (map definition_view definitions.now) }
{
    if operation_count(definitions) == 1 {
        first_operation(definitions)
    } else {
        None
    }
}

fn operation_for(definitions: &[Definition], name: Option<&Txt>) -> Option<usize>
    ensures { result ≡ operation_for (map definition_view definitions.now) (option_copied name.entry) }
{
    match name {
        Some(name) if !name.as_str().is_empty() => operation_named(definitions, name),
        _ => sole_operation(definitions),
    }
}

/// The operation at a place among the definitions of a document.
pub fn operation_at(document: &Document, place: OpRef) -> Option<&Operation>
    ensures { option_map (λ o. operation_view o.now) result ≡ operation_at (document_view document.now) place }
{
    match document.definitions.get(place.at()) {
        Some(definition) => operation_in(definition),
        None => None,
    }
}

// Queries alone are answered.
fn if_query(place: OpRef, operation: &Operation) -> Result<OpRef, Fault>
    ensures { let o = operation_view operation.now in result ≡ if_query place o.at o.kind }
{
    match operation.kind {
        OpKind::Query => Ok(place),
        OpKind::Mutation | OpKind::Subscription => {
            Err(fault_of(RuleId::OnlyQueries, Some(operation.at)))
        }
    }
}

/// The query that a request names, by its place in the document: that of the name, and without one, or with an empty one, the
/// only operation. F30 where there is none, F35 where it is no query. Takes no memory.
pub fn choose(document: &Document, name: Option<&Txt>) -> Result<OpRef, Fault>
    ensures { result ≡ chosen (document_view document.now) (option_copied name.entry) }
{
    let Some(place) = operation_for(&document.definitions, name) else {
        return Err(fault_of(RuleId::NoSuchOperation, None));
    };
    let place = OpRef::new(place);
    match operation_at(document, place) {
        Some(operation) => if_query(place, operation),
        None => Err(fault_of(RuleId::NoSuchOperation, None)),
    }
}
