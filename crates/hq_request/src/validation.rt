//! Validation: the rules of documents and those of fields, arguments and values.
ghost use Rattle.std.specs.Prelude.{◌≡◌};
ghost use Rattle.hq_base.specs.Due.{Gives};
ghost use Rattle.hq_gql_tree.specs.View.{document_view};
ghost use Rattle.hq_schema.specs.Schema.{schema_view};
ghost use Rattle.hq_request.specs.Validation.{earlier, valid_due};

use crate::refusal::RequestRefusal;
use hq_faults::RequestFault;
use hq_gql_tree::{Document, Fault};
use hq_rules_doc::first_doc_fault;
use hq_rules_fields::first_field_fault;
use hq_schema::Schema;
use std::alloc::Global;

// Of two faults the one whose rule has the number that stands first.
fn earlier(one: Option<Fault>, other: Option<Fault>) -> Option<Fault>
    ensures { result ≡ earlier one other }
{
    match (one, other) {
        (None, other) => other,
        (Some(one), None) => Some(one),
        (Some(one), Some(other)) => {
            if other.rule.text() < one.rule.text() {
                Some(other)
            } else {
                Some(one)
            }
        }
    }
}

/// Whether a document violates no rule for a schema, or the first fault.
pub(crate) fn valid_due(
    alloc: Global,
    schema: &Schema,
    document: &Document,
) -> Result<(), RequestRefusal>
    ensures { Gives (λ _. document_view document.now) RequestRefusal.Memory (valid_due (schema_view schema.now) (document_view document.now)) result }
{
    let of_document = first_doc_fault(alloc, document, schema)?;
    let of_fields = first_field_fault(alloc, document, schema)?;
    match earlier(of_document, of_fields) {
        None => Ok(()),
        Some(fault) => Err(RequestRefusal::Fault(RequestFault::Rule(fault))),
    }
}
