//! The rows of a table that a permission lets through, and the values that it shows of them.
ghost use Rattle.std.specs.Prelude.{◌≡◌, IfOk, OnOk, map};
ghost use Rattle.hq_base.specs.Cells.{cell_of};
ghost use Rattle.hq_base.specs.Lists.{sort};
ghost use Rattle.hq_copy_filter.specs.Kept.{kept_rows};
ghost use Rattle.hq_copy_filter.specs.Lent.{database_of, rows_of};
ghost use Rattle.hq_model.specs.Bexp.{bexp_view};
ghost use Rattle.hq_model.specs.PermView.{mask_view, permission_view};
ghost use Rattle.hq_model.specs.Permitted.{columns_cmp, mask_of, permitted_under, shown_under};
ghost use Rattle.hq_model.specs.Schema.{table};
ghost use Rattle.hq_model.specs.Described.{scope_schema};
ghost use Rattle.hq_model.specs.Seen.{all_of, row_cell, table_rows};
ghost use Rattle.hq_model.specs.Truth.{keeps};

use crate::loaded::rows_at;
use crate::order::columns_cmp;
use crate::truths::truth;
use hq_base::{Memory, Val};
use hq_load_tables::Rows;
use hq_model::{Bexp, ColId, Described, Mask, PermView, TableId};
use std::alloc::Global;

/// Rows, lent.
type RowRefs<'d> = Vec<&'d [Val]>;

// All rows, in file order.
fn listed<'d>(alloc: Global, rows: &'d Rows) -> Result<RowRefs<'d>, Memory>
    ensures { IfOk result (λ all. rows_of all.items ≡ rows.now) }
{
    let mut all = Vec::with_capacity(alloc, rows.len())?;
    for at in 0..rows.len() {
        all.push(rows.row(at))?;
    }
    Ok(all)
}

// The rows of a table, in file order.
fn table_rows<'d>(alloc: Global, tables: &[&'d Rows], t: TableId) -> Result<RowRefs<'d>, Memory>
    ensures { IfOk result (λ all. rows_of all.items ≡ table_rows (database_of tables.now) t) }
{
    match rows_at(tables, t) {
        Some(rows) => listed(alloc, rows),
        None => Ok(Vec::new(alloc)),
    }
}

// Sorts rows by the cells of columns; those whose cells are equal keep their order.
fn sort_rows(columns: &[ColId], rows: &mut RowRefs<'_>) -> Result<(), Memory>
    ensures { OnOk result (rows_of rows.new.items ≡ sort (columns_cmp columns.now) (rows_of rows.old.items)) }
{
    rows.sort_by(|left, right| columns_cmp(columns, *left, *right))?;
    Ok(())
}

// The columns of a table's key, none where there is no such table.
fn key_of<'s>(scope: &Described<'s>, t: TableId) -> &'s [ColId]
    ensures { result.now ≡ (table (scope_schema scope.now) t).key }
{
    match scope.catalog.table(t) {
        Some(table) => table.key.as_slice(),
        None => &[],
    }
}

// Those of these rows at which a filter is true, over all of a database.
fn kept<'d>(
    alloc: Global,
    filter: &Bexp,
    scope: &Described<'_>,
    tables: &[&Rows],
    t: TableId,
    rows: &[&'d [Val]],
) -> Result<RowRefs<'d>, Memory>
    ensures { IfOk result (λ kept. rows_of kept.items ≡ kept_rows (bexp_view filter.now) (scope_schema scope.now) (database_of tables.now) t (rows_of rows.now)) }
{
    let mut kept = Vec::new(alloc);
    for row in rows {
        if truth(alloc, filter, scope, tables, t, *row)?.is_yes() {
            kept.push(*row)?;
        }
    }
    Ok(kept)
}

/// The rows of a table that a bound permission lets through, in the order of the key.
pub fn permitted_rows<'d>(
    alloc: Global,
    permission: &PermView,
    scope: &Described<'_>,
    tables: &[&'d Rows],
    t: TableId,
) -> Result<Vec<&'d [Val]>, Memory>
    ensures { IfOk result (λ rows. rows_of rows.items ≡ permitted_under (permission_view permission.now) (scope_schema scope.now) (database_of tables.now) t) }
{
    let mut rows = table_rows(alloc, tables, t)?;
    sort_rows(key_of(scope, t), &mut rows)?;
    kept(alloc, &permission.filter, scope, tables, t, &rows)
}

// Whether a row's cell of a column shows: it has no mask, or this is true at the row.
fn shows(
    alloc: Global,
    masks: &[Mask],
    scope: &Described<'_>,
    tables: &[&Rows],
    t: TableId,
    row: &[Val],
    column: ColId,
) -> Result<bool, Memory>
    ensures { IfOk result (λ b. b ≡ keeps (mask_of (map mask_view masks.now) column) (scope_schema scope.now) (all_of (scope_schema scope.now) (database_of tables.now)) t row.now) }
{
    for mask in masks {
        if mask.col.at() == column.at() {
            return Ok(truth(alloc, &mask.shown, scope, tables, t, row)?.is_yes());
        }
    }
    Ok(true)
}

// The value of a row in a column, NULL beyond its columns.
fn value_at(alloc: Global, row: &[Val], column: ColId) -> Result<Val, Memory>
    ensures { IfOk result (λ v. cell_of v ≡ row_cell row.now column) }
{
    match row.get(column.at()) {
        Some(value) => Ok(value.copy(alloc)?),
        None => Ok(Val::Null),
    }
}

/// What a bound permission shows of a row in a column.
pub fn shown_value(
    alloc: Global,
    permission: &PermView,
    scope: &Described<'_>,
    tables: &[&Rows],
    t: TableId,
    row: &[Val],
    column: ColId,
) -> Result<Val, Memory>
    ensures { IfOk result (λ v. cell_of v ≡ shown_under (permission_view permission.now) (scope_schema scope.now) (database_of tables.now) t row.now column) }
{
    if shows(alloc, &permission.masks, scope, tables, t, row, column)? {
        value_at(alloc, row, column)
    } else {
        Ok(Val::Null)
    }
}
