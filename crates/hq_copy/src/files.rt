//! Texts that the file of a table would not give back.
ghost use Rattle.std.specs.Prelude.{◌≡◌, ◌⊎◌};
ghost use Rattle.std.specs.List.{list_any};
ghost use Rattle.hq_copy_definition.specs.Refusals.{begins_with, begins_with_mark, byte_order_mark, is_null_text, row_refusal};
ghost use Rattle.hq_copy_definition.specs.declared.refusal.CopyRefusal.TheVariants as refusal;
ghost use Rattle.hq_copy.specs.Files.{file_of, files_of};
ghost use Rattle.hq_copy.specs.Refused.{Refuses};
ghost use Rattle.hq_model.specs.Catalog.{full_name};

use crate::sizes::full_name;
use hq_base::Val;
use hq_copy_definition::CopyRefusal;
use hq_load_tables::{RowList, ValList};
use hq_model::{Column, Table};
use std::alloc::Global;

// Whether a text begins with U+FEFF.
fn begins_with_mark(text: &[u8]) -> bool
    ensures { result ≡ begins_with byte_order_mark text.now }
{
    matches!(text, [a, b, c, ..] if *a == 0xEF && *b == 0xBB && *c == 0xBF)
}

// Whether the name of the first column does.
fn is_marked(columns: &[Column]) -> bool
    ensures { result ≡ begins_with_mark columns.now }
{
    match columns {
        [first, ..] => begins_with_mark(first.name.as_bytes()),
        [] => false,
    }
}

// Whether a value is a text that stands for NULL in a file.
fn is_null_text(value: &Val) -> bool
    ensures { result ≡ is_null_text value.now }
{
    match value {
        Val::Text(text) => text.as_str() == "\\N",
        Val::Null | Val::Int(_) | Val::Bool(_) => false,
    }
}

// Whether a row holds such a text.
fn has_null_text(row: &[Val]) -> bool
    ensures { result ≡ list_any is_null_text row.now }
{
    row.iter().any(|value| is_null_text(value))
}

fn not_writable(alloc: Global, table: &Table, position: u64) -> CopyRefusal
    ensures { (result ≡ refusal.Memory) ⊎ (result ≡ refusal.NotWritable (full_name table.now) position) }
{
    match full_name(alloc, table) {
        Ok(table) => CopyRefusal::NotWritable { table, position },
        Err(_) => CopyRefusal::Memory,
    }
}

// Refuses the first row that holds such a text.
fn check_rows(alloc: Global, table: &Table, rows: &[ValList]) -> Result<(), CopyRefusal>
    ensures { Refuses (row_refusal (full_name table.now) 1 rows.now) result }
{
    for (at, row) in rows.iter().enumerate() {
        if has_null_text(row.as_slice()) {
            return Err(not_writable(alloc, table, at as u64 + 1));
        }
    }
    Ok(())
}

// Refuses the name of the first column, and then the rows.
fn check_file(alloc: Global, table: &Table, rows: &RowList) -> Result<(), CopyRefusal>
    ensures { Refuses (file_of table.now rows.now) result }
{
    if is_marked(table.columns.as_slice()) {
        return Err(not_writable(alloc, table, 0));
    }
    check_rows(alloc, table, rows.as_slice())
}

/// Refuses the first table whose file would not give it back.
pub fn check_files(alloc: Global, tables: &[Table], rows: &[RowList]) -> Result<(), CopyRefusal>
    ensures { Refuses (files_of tables.now rows.now) result }
{
    for (at, table) in tables.iter().enumerate() {
        match rows.get(at) {
            Some(rows) => check_file(alloc, table, rows)?,
            None => return Ok(()),
        }
    }
    Ok(())
}
