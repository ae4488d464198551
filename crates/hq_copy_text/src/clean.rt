//! The names and texts of a copy are UTF-8 without a zero byte, as each text in memory is. These walks do nothing but say so.
ghost use Rattle.std.specs.Prelude.{◌≡◌, ◌&&◌, map, true};
ghost use Rattle.std.specs.List.{list_all};
ghost use Rattle.hq_copy.specs.Redacting.{redacted_view};
ghost use Rattle.hq_copy_text.specs.Clean.{IsClean, are_clean_roots, is_clean_entry, is_clean_value};
ghost use Rattle.hq_laws_written.specs.Catalog.Written.{has_clean_names, is_clean_column};
ghost use Rattle.hq_laws_written.specs.Json.ReadBack.{is_clean};
ghost use Rattle.hq_model.specs.Meta.{tracked_view};

use hq_base::{Txt, Val};
use hq_copy::Redacted;
use hq_load_tables::Rows;
use hq_model::{Column, Rel, RootNames, Table, Tracked};

fn text_is_clean(text: &Txt)
    ensures { is_clean text.now ≡ true }
{
    text.is_text();
}

fn names_are_clean(names: &[Txt])
    ensures { list_all is_clean names.now ≡ true }
{
    for name in names {
        text_is_clean(name);
    }
}

fn column_is_clean(column: &Column)
    ensures { is_clean_column column.now ≡ true }
{
    text_is_clean(&column.name);
    text_is_clean(&column.of);
}

fn columns_are_clean(columns: &[Column])
    ensures { list_all is_clean_column columns.now ≡ true }
{
    for column in columns {
        column_is_clean(column);
    }
}

fn table_is_clean(table: &Table)
    ensures { (is_clean table.now.schema && is_clean table.now.name && list_all is_clean_column table.now.columns) ≡ true }
{
    text_is_clean(&table.schema);
    text_is_clean(&table.name);
    columns_are_clean(table.columns.as_slice());
}

fn tables_are_clean(tables: &[Table])
    ensures { has_clean_names tables.now ≡ true }
{
    for table in tables {
        table_is_clean(table);
    }
}

fn roots_are_clean(roots: &RootNames)
    ensures { are_clean_roots roots.now ≡ true }
{
    text_is_clean(&roots.select);
    text_is_clean(&roots.select_by_pk);
    text_is_clean(&roots.select_aggregate);
}

fn rels_are_clean(rels: &[Rel])
    ensures { list_all (λ r. is_clean r.name) rels.now ≡ true }
{
    for rel in rels {
        text_is_clean(&rel.name);
    }
}

fn entry_is_clean(tracked: &Tracked)
    ensures { is_clean_entry (tracked_view tracked.now) ≡ true }
{
    text_is_clean(&tracked.name);
    names_are_clean(tracked.column_names.as_slice());
    roots_are_clean(&tracked.roots);
    rels_are_clean(tracked.rels.as_slice());
}

fn entries_are_clean(tracked: &[Tracked])
    ensures { list_all is_clean_entry (map tracked_view tracked.now) ≡ true }
{
    for entry in tracked {
        entry_is_clean(entry);
    }
}

fn value_is_clean(value: &Val)
    ensures { is_clean_value value.now ≡ true }
{
    match value {
        Val::Text(text) => text_is_clean(text),
        Val::Null | Val::Int(_) | Val::Bool(_) => {}
    }
}

fn row_is_clean(row: &[Val])
    ensures { list_all is_clean_value row.now ≡ true }
{
    for value in row {
        value_is_clean(value);
    }
}

fn rows_are_clean(rows: &Rows)
    ensures { list_all (list_all is_clean_value) rows.now ≡ true }
{
    for at in 0..rows.len() {
        row_is_clean(rows.row(at));
    }
}

fn files_are_clean(all: &[Rows])
    ensures { list_all (list_all (list_all is_clean_value)) all.now ≡ true }
{
    for rows in all {
        rows_are_clean(rows);
    }
}

/// All names and texts of a copy are UTF-8 without a zero byte.
pub fn copy_is_clean(copy: &Redacted)
    ensures { IsClean (redacted_view copy.now) }
{
    tables_are_clean(copy.catalog.tables.as_slice());
    entries_are_clean(copy.meta.tracked.as_slice());
    files_are_clean(copy.rows.as_slice());
}
