//! The typed request of a document for a session.

use crate::fields::push_ask;
use crate::given::{
    given_document, given_meta, given_operation, given_variables, push_refusal, schema_of,
};
use hq_cases_file::{Case, Stop, Words, given_catalog, given_session};
use hq_gql_tree::Document;
use hq_model::{Catalog, Meta, Session};
use hq_request_build::build;
use hq_request_coerce::{CoerceRefusal, OpRef, VarValues, coerce_variables};
use hq_request_tree::Ask;
use hq_schema::Schema;
use std::alloc::Global;

// What documents are asked over.
#[derive(Clone, Copy)]
struct Over<'a> {
    catalog: &'a Catalog,
    meta: &'a Meta,
    session: &'a Session,
    schema: &'a Schema,
}

fn push_answer(asked: &Result<Ask, CoerceRefusal>, words: &mut Words) {
    match asked {
        Ok(ask) => push_ask(ask, words),
        Err(refusal) => push_refusal(refusal, words),
    }
}

// Adds the typed request of an operation by the values of its variables.
fn push_built(
    alloc: Global,
    over: Over,
    document: &Document,
    op: OpRef,
    vars: &VarValues,
    words: &mut Words,
) {
    let Over {
        catalog,
        meta,
        session,
        schema,
    } = over;
    let asked = build(alloc, document, op, vars, schema, catalog, meta, session);
    push_answer(&asked, words);
}

// Adds the typed request of an operation, or the first fault.
fn push_request(
    alloc: Global,
    over: Over,
    document: &Document,
    op: OpRef,
    vars: &Result<VarValues, CoerceRefusal>,
    words: &mut Words,
) {
    match vars {
        Ok(vars) => push_built(alloc, over, document, op, vars, words),
        Err(refusal) => push_refusal(refusal, words),
    }
}

// Adds the typed request of a document, or its first fault.
fn push_asked(
    alloc: Global,
    case: &Case,
    over: Over,
    document: &Document,
    words: &mut Words,
) -> Result<(), Stop> {
    let op = given_operation(alloc, case, document)?;
    let given = given_variables(alloc, case)?;
    let vars = coerce_variables(alloc, document, op, over.schema, given.as_ref());
    push_request(alloc, over, document, op, &vars, words);
    Ok(())
}

// The same of the document of a case, over a database and for a session.
fn push_over(
    alloc: Global,
    case: &Case,
    catalog: &Catalog,
    meta: &Meta,
    session: &Session,
    words: &mut Words,
) -> Result<(), Stop> {
    let schema = schema_of(alloc, catalog, meta, session)?;
    let document = given_document(alloc, case)?;
    let over = Over {
        catalog,
        meta,
        session,
        schema: &schema,
    };
    push_asked(alloc, case, over, &document, words)
}

/// The typed request, or its first fault.
pub fn tell_request(alloc: Global, case: &Case, words: &mut Words) -> Result<(), Stop> {
    let catalog = given_catalog(alloc, case)?;
    let meta = given_meta(alloc, case, &catalog)?;
    let session = given_session(alloc, case)?;
    push_over(alloc, case, &catalog, &meta, &session, words)
}
