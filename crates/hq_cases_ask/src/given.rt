//! Documents, schemas and variables that cases name.

use hq_base::{Json, Txt};
use hq_cases_file::{Case, Stop, Words, given_catalog, given_session};
use hq_gql_lexer::{Tokens, lex};
use hq_gql_parser::parse;
use hq_gql_tree::{Document, Fault};
use hq_load_meta::read_meta;
use hq_model::{Catalog, Meta, Role, Session};
use hq_request_coerce::{CoerceRefusal, OpRef, choose};
use hq_schema::Schema;
use hq_schema_of_role::derive;
use std::alloc::Global;

fn meta_of(alloc: Global, bytes: &[u8], catalog: &Catalog) -> Result<Meta, Stop> {
    match read_meta(alloc, bytes, catalog) {
        Ok(meta) => Ok(meta),
        Err(_) => Err(Stop::Shape),
    }
}

/// The metadata over a catalog that the value of the member `metadata` writes.
pub fn given_meta(alloc: Global, case: &Case, catalog: &Catalog) -> Result<Meta, Stop> {
    let bytes = case.json_text(alloc, "metadata")?;
    meta_of(alloc, bytes.as_slice(), catalog)
}

// The schema of a role, in a box: one that lies on the stack is let go field by field, at each end of a function.
fn boxed_schema(
    alloc: Global,
    catalog: &Catalog,
    meta: &Meta,
    role: &Role,
) -> Result<Box<Schema>, Stop> {
    Ok(Box::new(alloc, derive(alloc, catalog, meta, role)?)?)
}

/// The schema of the role of a session.
pub fn schema_of(
    alloc: Global,
    catalog: &Catalog,
    meta: &Meta,
    session: &Session,
) -> Result<Box<Schema>, Stop> {
    boxed_schema(alloc, catalog, meta, &Role::of(alloc, session)?)
}

/// The schema of the role of a case's session.
pub fn given_schema(alloc: Global, case: &Case) -> Result<Box<Schema>, Stop> {
    let catalog = given_catalog(alloc, case)?;
    let meta = given_meta(alloc, case, &catalog)?;
    schema_of(alloc, &catalog, &meta, &given_session(alloc, case)?)
}

// The document that tokens spell, of a text of this length.
fn document_of(alloc: Global, tokens: &Tokens, length: u64) -> Result<Document, Stop> {
    match parse(alloc, tokens, length) {
        Ok(document) => Ok(document),
        Err(_) => Err(Stop::Shape),
    }
}

/// The document that the member `in` writes.
pub fn given_document(alloc: Global, case: &Case) -> Result<Document, Stop> {
    let text = case.bytes(alloc, "in")?;
    match lex(alloc, text.as_slice()) {
        Ok(tokens) => document_of(alloc, &tokens, text.len() as u64),
        Err(_) => Err(Stop::Shape),
    }
}

/// The name of an operation that the member `operation` writes, if it is there.
pub fn given_name(alloc: Global, case: &Case) -> Result<Option<Txt>, Stop> {
    match case.find("operation") {
        Some(_) => Ok(Some(case.text(alloc, "operation")?)),
        None => Ok(None),
    }
}

fn operation_of(document: &Document, name: Option<&Txt>) -> Result<OpRef, Stop> {
    match choose(document, name) {
        Ok(op) => Ok(op),
        Err(_) => Err(Stop::Shape),
    }
}

/// The operation of a document that the member `operation` names.
pub fn given_operation(alloc: Global, case: &Case, document: &Document) -> Result<OpRef, Stop> {
    operation_of(document, given_name(alloc, case)?.as_ref())
}

/// The variables that the member `variables` writes, if it is there.
pub fn given_variables(alloc: Global, case: &Case) -> Result<Option<Json>, Stop> {
    match case.find("variables") {
        Some(_) => {
            let bytes = case.bytes(alloc, "variables")?;
            Ok(Some(Json::from_body(alloc, bytes.as_slice())?))
        }
        None => Ok(None),
    }
}

/// Adds a fault: its rule, its place, and for a session variable its name and what it should be.
pub fn push_fault(fault: &Fault, words: &mut Words) {
    words.push(fault.rule.text());
    if let Some(at) = fault.at {
        words.push(" at ");
        words.push_number(at);
    }
    if let Some(name) = &fault.name {
        words.push_pair(" ", name.as_str());
    }
    if let Some(want) = fault.want {
        words.push(" ");
        words.push_debug(&want);
    }
}

/// Adds a refusal.
pub fn push_refusal(refusal: &CoerceRefusal, words: &mut Words) {
    match refusal {
        CoerceRefusal::Fault(fault) => push_fault(fault, words),
        CoerceRefusal::Memory => words.push("Memory"),
    }
}
