//! Files of tables, read over the first table of a catalog.

use hq_base::Val;
use hq_cases_file::{Case, Stop, Words, given_catalog, push_value};
use hq_io::LARGEST_FILE;
use hq_load_tables::{LoadRefusal, Rows, load_table};
use hq_model::Catalog;
use std::alloc::Global;

fn push_row(row: &[Val], words: &mut Words) {
    for value in row {
        push_value(value, words);
        words.push(" ");
    }
    words.push(";");
}

// The values of the rows, a space behind each and a semicolon behind each row.
fn push_rows(rows: &Rows, words: &mut Words) {
    for at in 0..rows.len() {
        push_row(rows.row(at), words);
    }
}

// The rows that a file gives for the first table of a catalog.
fn loaded(
    alloc: Global,
    bytes: &[u8],
    catalog: &Catalog,
) -> Result<Result<Rows, LoadRefusal>, Stop> {
    let Some(table) = catalog.tables.get(0) else {
        return Err(Stop::Shape);
    };
    if bytes.len() > LARGEST_FILE {
        return Err(Stop::Shape);
    }
    Ok(load_table(alloc, bytes, table))
}

fn push_refusal(refusal: LoadRefusal, words: &mut Words) {
    words.push_debug(&refusal);
    words.push(": ");
    words.push_shown(&refusal);
}

fn push_loaded(
    alloc: Global,
    bytes: &[u8],
    catalog: &Catalog,
    words: &mut Words,
) -> Result<(), Stop> {
    match loaded(alloc, bytes, catalog)? {
        Ok(rows) => push_rows(&rows, words),
        Err(refusal) => push_refusal(refusal, words),
    }
    Ok(())
}

/// The rows of a table's file, or its first refusal as it is told.
pub fn tell_table_file(alloc: Global, case: &Case, words: &mut Words) -> Result<(), Stop> {
    let bytes = case.bytes(alloc, "in")?;
    push_loaded(alloc, bytes.as_slice(), &given_catalog(alloc, case)?, words)
}
