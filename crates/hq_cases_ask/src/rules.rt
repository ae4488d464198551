//! The first rule that a document violates for the schema of a role.

use crate::given::{given_document, given_schema, push_fault};
use hq_cases_file::{Case, Stop, Words};
use hq_gql_tree::Fault;
use hq_rules_doc::first_doc_fault;
use hq_rules_fields::first_field_fault;
use std::alloc::Global;

fn push_first(fault: &Option<Fault>, words: &mut Words) {
    match fault {
        Some(fault) => push_fault(fault, words),
        None => words.push("none"),
    }
}

/// The first rule of documents that a text violates, and its place.
pub fn tell_of_document(alloc: Global, case: &Case, words: &mut Words) -> Result<(), Stop> {
    let schema = given_schema(alloc, case)?;
    let document = given_document(alloc, case)?;
    push_first(&first_doc_fault(alloc, &document, &schema)?, words);
    Ok(())
}

/// The first rule of fields, arguments and values that a text violates, and its place.
pub fn tell_of_fields(alloc: Global, case: &Case, words: &mut Words) -> Result<(), Stop> {
    let schema = given_schema(alloc, case)?;
    let document = given_document(alloc, case)?;
    push_first(&first_field_fault(alloc, &document, &schema)?, words);
    Ok(())
}
