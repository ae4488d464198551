//! An accepted request in words.

use crate::filter::{FilterTable, put_filter};
use crate::layout::put_statement;
use hq_base::{Bytes, Memory};
use hq_explain_places::Words;
use hq_model::{Bexp, Catalog, ColId, Mask, Meta, PermView, Role, Tracked};
use hq_request_tree::{Ask, Bound};
use std::alloc::Global;

fn put_role(words: &mut Words, role: &Role) {
    match role {
        Role::Admin => words.put("admin"),
        Role::Named(name) => words.put_bytes(name.as_bytes()),
    }
}

// Adds the GraphQL names of columns.
fn put_columns(words: &mut Words, tracked: &Tracked, cols: &[ColId]) {
    let names = tracked.column_names.as_slice();
    for (at, col) in cols.iter().enumerate() {
        words.put(if at == 0 { "" } else { ", " });
        if let Some(name) = names.get(col.at()) {
            words.put_bytes(name.as_bytes());
        }
    }
}

fn put_rows(words: &mut Words, scope: &FilterTable<'_>, filter: &Bexp) {
    match filter {
        Bexp::True => words.put("all"),
        filter => {
            words.put("where ");
            put_filter(words, scope, filter);
        }
    }
    words.put("\n");
}

fn put_limit(words: &mut Words, perm: &PermView) {
    if let Some(limit) = perm.limit {
        words.put("    limit:   ");
        words.put_number(limit);
        words.put("\n");
    }
}

// Adds the columns that show at some of the rows alone.
fn put_masks(words: &mut Words, tracked: &Tracked, scope: &FilterTable<'_>, masks: &[Mask]) {
    for mask in masks {
        words.put("    masked:  ");
        put_columns(words, tracked, &[mask.col]);
        words.put(", shown ");
        put_rows(words, scope, &mask.shown);
    }
}

// Adds a touched table: what the role may see of it, and which of its rows this session may.
fn put_table(
    alloc: Global,
    words: &mut Words,
    catalog: &Catalog,
    meta: &Meta,
    role: &Role,
    bound: &Bound,
) -> Result<(), Memory> {
    let Some(tracked) = meta.tracked_table(bound.table) else {
        return Ok(());
    };
    let Some(perm) = meta.perm(alloc, role, bound.table)? else {
        return Ok(());
    };
    words.put("  ");
    words.put_bytes(tracked.name.as_bytes());
    words.put("\n    columns: ");
    put_columns(words, tracked, perm.cols.as_slice());
    words.put("\n    rows:    ");
    let scope = FilterTable {
        catalog,
        meta,
        table: bound.table,
    };
    put_rows(words, &scope, &bound.filter);
    put_masks(words, tracked, &scope, &bound.masks);
    put_limit(words, &perm);
    Ok(())
}

fn put_count(words: &mut Words, count: usize) {
    words.put_count(count);
    words.put(if count == 1 { " table" } else { " tables" });
}

/// What an accepted request asks: the tables that it touches, each with the role's columns, the bound filter and the limit, and its
/// statement, where it asks one.
pub fn accepted_words(
    alloc: Global,
    catalog: &Catalog,
    meta: &Meta,
    request: &Ask,
    statement: Option<&[u8]>,
) -> Result<Bytes, Memory> {
    let mut words = Words::new(alloc);
    words.put("role ");
    put_role(&mut words, &request.role);
    words.put(" asks ");
    put_count(&mut words, request.bound.len());
    words.put("\n");
    for bound in request.bound.as_slice() {
        put_table(alloc, &mut words, catalog, meta, &request.role, bound)?;
    }
    if let Some(statement) = statement {
        words.put("statement:\n");
        put_statement(alloc, &mut words, statement);
    }
    words.told()
}
