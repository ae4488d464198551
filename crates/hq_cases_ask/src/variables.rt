//! The coerced variables of an operation.

use crate::given::{given_document, given_operation, given_schema, given_variables, push_refusal};
use hq_cases_file::{Case, Stop, Words, push_json};
use hq_gql_tree::Document;
use hq_request_coerce::{CoerceRefusal, VarValue, VarValues, coerce_variables};
use hq_schema::Schema;
use std::alloc::Global;

// Each variable with its value, in words.
fn push_values(alloc: Global, values: &[VarValue], words: &mut Words) {
    for (at, var) in values.iter().enumerate() {
        words.push(if at == 0 { "" } else { ", " });
        words.push_pair(var.name.as_str(), " = ");
        push_json(alloc, &var.value, words);
    }
}

// Adds the variables that have values, or the fault.
fn push_coerced(alloc: Global, values: &Result<VarValues, CoerceRefusal>, words: &mut Words) {
    match values {
        Ok(values) => push_values(alloc, values.as_slice(), words),
        Err(refusal) => push_refusal(refusal, words),
    }
}

// The same of an operation that a case names.
fn push_variables(
    alloc: Global,
    case: &Case,
    document: &Document,
    schema: &Schema,
    words: &mut Words,
) -> Result<(), Stop> {
    let op = given_operation(alloc, case, document)?;
    let given = given_variables(alloc, case)?;
    let values = coerce_variables(alloc, document, op, schema, given.as_ref());
    push_coerced(alloc, &values, words);
    Ok(())
}

/// The variables that have values, or the fault.
pub fn tell_values(alloc: Global, case: &Case, words: &mut Words) -> Result<(), Stop> {
    let schema = given_schema(alloc, case)?;
    let document = given_document(alloc, case)?;
    push_variables(alloc, case, &document, &schema, words)
}
