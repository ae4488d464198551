//! Metadata, read over a catalog, and what a role may see by it.

use crate::given::{given_meta, given_role, given_table};
use hq_base::Txt;
use hq_cases_file::{Case, Stop, Words, given_catalog, push_bexp};
use hq_load_meta::{MetaRefusal, read_meta};
use hq_model::{
    Catalog, ColId, Inherited, Mask, Meta, Pair, Perm, PermView, Rel, Role, RootNames, TableId,
    Tracked,
};
use std::alloc::Global;

fn push_refusal(refusal: &MetaRefusal, words: &mut Words) {
    match refusal {
        MetaRefusal::NotJson => words.push("NotJson"),
        MetaRefusal::Version { found } => words.push_pair("Version ", found.as_str()),
        MetaRefusal::Shape { path } => words.push_pair("Shape ", path.as_str()),
        MetaRefusal::UnknownTable { path } => words.push_pair("UnknownTable ", path.as_str()),
        MetaRefusal::UnknownColumn { path } => words.push_pair("UnknownColumn ", path.as_str()),
        MetaRefusal::NoForeignKey { path } => words.push_pair("NoForeignKey ", path.as_str()),
        MetaRefusal::BadOperand { path } => words.push_pair("BadOperand ", path.as_str()),
        MetaRefusal::BadMapping { path } => words.push_pair("BadMapping ", path.as_str()),
        MetaRefusal::RepeatedName { path } => words.push_pair("RepeatedName ", path.as_str()),
        MetaRefusal::RepeatedRole { path } => words.push_pair("RepeatedRole ", path.as_str()),
        MetaRefusal::Sources { count } => {
            words.push("Sources ");
            words.push_number(*count);
        }
        MetaRefusal::Memory => words.push("Memory"),
    }
}

// Adds whether bytes are read as metadata.
fn push_verdict(alloc: Global, bytes: &[u8], catalog: &Catalog, words: &mut Words) {
    match read_meta(alloc, bytes, catalog) {
        Ok(_) => words.push("read"),
        Err(refusal) => push_refusal(&refusal, words),
    }
}

/// Whether the bytes of metadata are read over the catalog, or their refusal.
pub fn tell_verdict(alloc: Global, case: &Case, words: &mut Words) -> Result<(), Stop> {
    let bytes = case.bytes(alloc, "in")?;
    let catalog = given_catalog(alloc, case)?;
    push_verdict(alloc, bytes.as_slice(), &catalog, words);
    Ok(())
}

fn push_names(names: &[Txt], words: &mut Words) {
    for name in names {
        words.push_pair(" ", name.as_str());
    }
}

fn push_pairs(pairs: &[Pair], words: &mut Words) {
    for pair in pairs {
        words.push(" ");
        words.push_place(pair.own.at());
        words.push("=");
        words.push_place(pair.remote.at());
    }
}

// A relationship: its kind, its name, its remote table and its pairs.
fn push_rel(rel: &Rel, words: &mut Words) {
    words.push(if rel.many { "; many " } else { "; one " });
    words.push_pair(rel.name.as_str(), " ");
    words.push_place(rel.remote.at());
    push_pairs(rel.pairs.as_slice(), words);
}

fn push_rels(rels: &[Rel], words: &mut Words) {
    for rel in rels {
        push_rel(rel, words);
    }
}

fn push_columns(columns: &[ColId], words: &mut Words) {
    for column in columns {
        words.push(" ");
        words.push_place(column.at());
    }
}

fn push_most(limit: Option<u64>, aggregations: bool, words: &mut Words) {
    if let Some(most) = limit {
        words.push(", ");
        words.push_number(most);
        words.push(" rows");
    }
    words.push(if aggregations { ", aggregates" } else { "" });
}

// A permission: its role, its columns, its filter, its limit, and whether aggregates are allowed.
fn push_perm(perm: &Perm, words: &mut Words) {
    words.push_pair("; role ", perm.role.as_str());
    words.push(":");
    push_columns(perm.cols.as_slice(), words);
    words.push(" where ");
    push_bexp(&perm.filter, words);
    push_most(perm.limit, perm.aggregations, words);
}

fn push_perms(perms: &[Perm], words: &mut Words) {
    for perm in perms {
        push_perm(perm, words);
    }
}

fn push_roots(roots: &RootNames, words: &mut Words) {
    words.push_pair(" | ", roots.select.as_str());
    words.push_pair(" ", roots.select_aggregate.as_str());
    words.push_pair(" ", roots.select_by_pk.as_str());
}

// A tracked table: its place, its name, its columns' names, those of its root fields, its relationships and permissions.
fn push_tracked(tracked: &Tracked, words: &mut Words) {
    words.push_place(tracked.table.at());
    words.push_pair(" ", tracked.name.as_str());
    words.push(":");
    push_names(tracked.column_names.as_slice(), words);
    push_roots(&tracked.roots, words);
    push_rels(tracked.rels.as_slice(), words);
    push_perms(tracked.perms.as_slice(), words);
    words.push("\n");
}

// An inherited role and its set.
fn push_inherited(inherited: &Inherited, words: &mut Words) {
    words.push_pair("inherited ", inherited.role.as_str());
    words.push(":");
    push_names(inherited.set.as_slice(), words);
    words.push("\n");
}

fn push_all_inherited(all: &[Inherited], words: &mut Words) {
    for inherited in all {
        push_inherited(inherited, words);
    }
}

fn push_all_tracked(all: &[Tracked], words: &mut Words) {
    for tracked in all {
        push_tracked(tracked, words);
    }
}

// The metadata of a case.
fn meta_of(alloc: Global, case: &Case) -> Result<Meta, Stop> {
    let catalog = given_catalog(alloc, case)?;
    given_meta(alloc, case, &catalog)
}

/// The tracked tables and the inherited roles of metadata.
pub fn tell_export(alloc: Global, case: &Case, words: &mut Words) -> Result<(), Stop> {
    let meta = meta_of(alloc, case)?;
    push_all_tracked(meta.tracked.as_slice(), words);
    push_all_inherited(meta.inherited.as_slice(), words);
    Ok(())
}

// A column that shows at some rows only.
fn push_mask(mask: &Mask, words: &mut Words) {
    words.push("; c");
    words.push_place(mask.col.at());
    words.push(" where ");
    push_bexp(&mask.shown, words);
}

fn push_masks(masks: &[Mask], words: &mut Words) {
    for mask in masks {
        push_mask(mask, words);
    }
}

// What is seen by a permission.
fn push_view(view: &PermView, words: &mut Words) {
    words.push("columns");
    push_columns(view.cols.as_slice(), words);
    words.push(" where ");
    push_bexp(&view.filter, words);
    push_most(view.limit, view.aggregations, words);
    push_masks(&view.masks, words);
}

fn push_seen(
    alloc: Global,
    meta: &Meta,
    role: &Role,
    table: TableId,
    words: &mut Words,
) -> Result<(), Stop> {
    match meta.perm(alloc, role, table)? {
        Some(view) => push_view(&view, words),
        None => words.push("nothing"),
    }
    Ok(())
}

/// What a role may see of a table.
pub fn tell_permission(alloc: Global, case: &Case, words: &mut Words) -> Result<(), Stop> {
    let table = given_table(case)?;
    let role = given_role(alloc, case)?;
    push_seen(alloc, &meta_of(alloc, case)?, &role, table, words)
}
