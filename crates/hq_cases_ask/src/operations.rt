//! The operation that a request names.

use crate::given::{given_document, given_name, push_fault};
use hq_base::Txt;
use hq_cases_file::{Case, Stop, Words};
use hq_gql_tree::Document;
use hq_request_coerce::choose;
use std::alloc::Global;

fn push_choice(document: &Document, name: Option<&Txt>, words: &mut Words) {
    match choose(document, name) {
        Ok(op) => {
            words.push("definition ");
            words.push_place(op.at());
        }
        Err(fault) => push_fault(&fault, words),
    }
}

/// The place of the chosen operation among the definitions, or the fault.
pub fn tell_operation(alloc: Global, case: &Case, words: &mut Words) -> Result<(), Stop> {
    let name = given_name(alloc, case)?;
    push_choice(&given_document(alloc, case)?, name.as_ref(), words);
    Ok(())
}
