//! Catalogs, read from their bytes.

use hq_cases_file::{Case, Stop, Words};
use hq_load_catalog::{CatalogRefusal, read_catalog};
use hq_model::{ColId, Column, ForeignKey, Table};
use std::alloc::Global;

fn push_columns(columns: &[Column], words: &mut Words) {
    for column in columns {
        words.push_pair(" ", column.name.as_str());
        words.push(" ");
        words.push_debug(&column.ty);
        words.push(if column.nullable { "?" } else { "" });
    }
}

fn push_key(key: &[ColId], words: &mut Words) {
    for column in key {
        words.push(" key ");
        words.push_place(column.at());
    }
}

fn push_pairs(own: &[ColId], remote: &[ColId], words: &mut Words) {
    for (column, reference) in own.iter().zip(remote) {
        words.push(" ");
        words.push_place(column.at());
        words.push("=");
        words.push_place(reference.at());
    }
}

fn push_foreign(keys: &[ForeignKey], words: &mut Words) {
    for key in keys {
        words.push(" foreign ");
        words.push_place(key.remote.at());
        push_pairs(key.columns.as_slice(), key.references.as_slice(), words);
    }
}

// A table's name, its columns, the places of its key's columns, and its foreign keys with their pairs.
fn push_table(table: &Table, words: &mut Words) {
    words.push(table.schema.as_str());
    words.push(".");
    words.push(table.name.as_str());
    push_columns(table.columns.as_slice(), words);
    push_key(table.key.as_slice(), words);
    push_foreign(table.foreign.as_slice(), words);
    words.push(";");
}

fn push_tables(tables: &[Table], words: &mut Words) {
    for table in tables {
        push_table(table, words);
    }
}

fn push_refusal(refusal: &CatalogRefusal, words: &mut Words) {
    match refusal {
        CatalogRefusal::NotJson => words.push("NotJson"),
        CatalogRefusal::Shape { path } => words.push_pair("Shape ", path.as_str()),
        CatalogRefusal::Repeated { name } => words.push_pair("Repeated ", name.as_str()),
        CatalogRefusal::NoKey { table } => words.push_pair("NoKey ", table.as_str()),
        CatalogRefusal::NameLength { name } => words.push_pair("NameLength ", name.as_str()),
        CatalogRefusal::TooMany { what, count } => {
            words.push_pair("TooMany ", what.as_str());
            words.push(" ");
            words.push_number(*count);
        }
        CatalogRefusal::Memory => words.push("Memory"),
    }
}

fn push_read(alloc: Global, bytes: &[u8], words: &mut Words) {
    match read_catalog(alloc, bytes) {
        Ok(catalog) => push_tables(catalog.tables.as_slice(), words),
        Err(refusal) => push_refusal(&refusal, words),
    }
}

/// The tables of the catalog that bytes write, or its refusal.
pub fn tell_catalog(alloc: Global, case: &Case, words: &mut Words) -> Result<(), Stop> {
    let bytes = case.bytes(alloc, "in")?;
    push_read(alloc, bytes.as_slice(), words);
    Ok(())
}
