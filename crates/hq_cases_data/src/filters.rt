//! Filters of permissions, read and bound.

use crate::given::{given_meta, given_table};
use hq_base::{Json, Txt, top_path};
use hq_cases_file::{Case, Stop, Words, given_catalog, given_session, push_bexp};
use hq_load_filter::{FilterRefusal, read_filter};
use hq_model::{Bexp, BindRefusal, Catalog, Meta, Session, TableId};
use hq_model_binding::bind;
use std::alloc::Global;

fn push_refusal(refusal: &FilterRefusal, words: &mut Words) {
    match refusal {
        FilterRefusal::Shape { path } => words.push_pair("Shape ", path.as_str()),
        FilterRefusal::UnknownTable { path } => words.push_pair("UnknownTable ", path.as_str()),
        FilterRefusal::UnknownColumn { path } => words.push_pair("UnknownColumn ", path.as_str()),
        FilterRefusal::BadOperand { path } => words.push_pair("BadOperand ", path.as_str()),
        FilterRefusal::Memory => words.push("Memory"),
    }
}

// The filter of a case.
fn given_filter(alloc: Global, case: &Case) -> Result<Json, Stop> {
    Ok(Json::from_body(alloc, case.bytes(alloc, "in")?.as_slice())?)
}

// Adds the expression of a filter, or its refusal.
fn push_read(
    alloc: Global,
    catalog: &Catalog,
    meta: &Meta,
    table: TableId,
    json: &Json,
    top: &Txt,
    words: &mut Words,
) {
    match read_filter(alloc, json, top, catalog, meta, table) {
        Ok(bexp) => push_bexp(&bexp, words),
        Err(refusal) => push_refusal(&refusal, words),
    }
}

// The same of the filter of a case, over a table of a database.
fn push_filter(
    alloc: Global,
    case: &Case,
    catalog: &Catalog,
    meta: &Meta,
    words: &mut Words,
) -> Result<(), Stop> {
    let table = given_table(case)?;
    let top = top_path(alloc)?;
    let json = given_filter(alloc, case)?;
    push_read(alloc, catalog, meta, table, &json, &top, words);
    Ok(())
}

/// The expression of a filter over a table, or its refusal.
pub fn tell_filter(alloc: Global, case: &Case, words: &mut Words) -> Result<(), Stop> {
    let catalog = given_catalog(alloc, case)?;
    let meta = given_meta(alloc, case, &catalog)?;
    push_filter(alloc, case, &catalog, &meta, words)
}

// The expression of the filter of a case over a table, in a box.
fn bexp_of(
    alloc: Global,
    case: &Case,
    catalog: &Catalog,
    meta: &Meta,
    table: TableId,
) -> Result<Box<Bexp>, Stop> {
    let top = top_path(alloc)?;
    let json = given_filter(alloc, case)?;
    match read_filter(alloc, &json, &top, catalog, meta, table) {
        Ok(bexp) => Ok(Box::new(alloc, bexp)?),
        Err(_) => Err(Stop::Shape),
    }
}

fn push_fault(refusal: &BindRefusal, words: &mut Words) {
    match refusal {
        BindRefusal::NoVariable { name } => words.push_pair("no ", name.as_str()),
        BindRefusal::BadVariable { name, want } => {
            words.push_pair(name.as_str(), " is not ");
            words.push_debug(want);
        }
        BindRefusal::Memory => words.push("Memory"),
    }
}

// Adds an expression with the values of a session in place of its variables, or the first fault.
fn push_bound(
    alloc: Global,
    session: &Session,
    catalog: &Catalog,
    meta: &Meta,
    table: TableId,
    bexp: &Bexp,
    words: &mut Words,
) {
    match bind(alloc, bexp, session, catalog, meta, table) {
        Ok(bexp) => push_bexp(&bexp, words),
        Err(refusal) => push_fault(&refusal, words),
    }
}

// The same of the filter of a case, by the case's session.
fn push_binding(
    alloc: Global,
    case: &Case,
    catalog: &Catalog,
    meta: &Meta,
    words: &mut Words,
) -> Result<(), Stop> {
    let table = given_table(case)?;
    let bexp = bexp_of(alloc, case, catalog, meta, table)?;
    let session = given_session(alloc, case)?;
    push_bound(alloc, &session, catalog, meta, table, &bexp, words);
    Ok(())
}

/// The expression of a filter with the values of a session in place of its variables, or the first fault.
pub fn tell_binding(alloc: Global, case: &Case, words: &mut Words) -> Result<(), Stop> {
    let catalog = given_catalog(alloc, case)?;
    let meta = given_meta(alloc, case, &catalog)?;
    push_binding(alloc, case, &catalog, &meta, words)
}
