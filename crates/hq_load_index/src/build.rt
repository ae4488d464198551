//! Row numbers in the order of their keys.
ghost use Rattle.std.specs.Prelude.{◌≡◌, ◌^◌, ◌<◌, IfOk, OnOk, filter, length, not, true};
ghost use Rattle.hq_base.specs.Lists.{sort};
ghost use Rattle.hq_load_index.specs.Grids.{rows_in};
ghost use Rattle.hq_load_index.specs.Indexes.{counted, by_key, sorted_rows, indexed_rows};
ghost use Rattle.hq_load_index.specs.Keys.{key_at, has_null};

use crate::Grid;
use crate::key::{row_has_null, rows_cmp};
use crate::whole::sorted_by_number;
use hq_base::Memory;
use hq_model::ColId;
use std::alloc::Global;
use std::cmp::Ordering;

// The numbers from 0 on, so many.
#[tactic(auto, using(crate::proofs::Counted::counted_more))]
fn numbers(alloc: Global, count: u32) -> Result<Vec<u32>, Memory>
    ensures { IfOk result (λ all. all.items ≡ counted 0 count) }
{
    let mut all = Vec::with_capacity(alloc, count as usize)?;
    for n in 0..count {
        all.push(n)?;
    }
    Ok(all)
}

// The order of two rows by their keys.
fn order(grid: &Grid, columns: &[ColId], left: u32, right: u32) -> Ordering
    ensures { result ≡ by_key columns.now (rows_in grid.now) left right }
{
    rows_cmp(columns, grid.row(left as usize), grid.row(right as usize))
}

// Whether the rows stand in the order of their keys already.
fn are_sorted(grid: &Grid, columns: &[ColId]) -> bool
    ensures { result ≡ true → sorted_rows columns.now (rows_in grid.now) ≡ counted 0 (length (rows_in grid.now)) }
{
    for at in 1..grid.len() {
        if rows_cmp(columns, grid.row(at - 1), grid.row(at)).is_gt() {
            return false;
        }
    }
    true
}

fn sort_by_order(grid: &Grid, columns: &[ColId], rows: &mut Vec<u32>) -> Result<(), Memory>
    ensures { OnOk result (rows.new.items ≡ sort (by_key columns.now (rows_in grid.now)) rows.old.items) }
{
    rows.sort_by(|left, right| order(grid, columns, *left, *right))?;
    Ok(())
}

// The rows in the order of their keys, those of one key in their order. Keys of one whole number are compared beside one another
// in memory.
fn sort_rows(
    alloc: Global,
    grid: &Grid,
    columns: &[ColId],
    rows: Vec<u32>,
) -> Result<Vec<u32>, Memory>
    ensures { IfOk result (λ sorted. sorted.items ≡ sort (by_key columns.now (rows_in grid.now)) rows.items) }
{
    if let [column] = columns {
        if let Some(sorted) = sorted_by_number(alloc, grid, *column, &rows)? {
            return Ok(sorted);
        }
    }
    let mut rows = rows;
    sort_by_order(grid, columns, &mut rows)?;
    Ok(rows)
}

/// All rows in the order of their keys, those of one key in file order.
pub(crate) fn sorted_rows(alloc: Global, grid: &Grid, columns: &[ColId]) -> Result<Vec<u32>, Memory>
    requires { length (rows_in grid.now) < 2 ^ 32 }
    ensures { IfOk result (λ rows. rows.items ≡ sorted_rows columns.now (rows_in grid.now)) }
{
    let rows = numbers(alloc, grid.len() as u32)?;
    if are_sorted(grid, columns) {
        return Ok(rows);
    }
    sort_rows(alloc, grid, columns, rows)
}

fn lacks_null(grid: &Grid, columns: &[ColId], row: u32) -> bool
    ensures { result ≡ not (has_null (key_at columns.now (rows_in grid.now) row)) }
{
    !row_has_null(columns, grid.row(row as usize))
}

/// Leaves the rows whose key has no NULL.
pub(crate) fn leave_keys(grid: &Grid, columns: &[ColId], rows: &mut Vec<u32>)
    ensures { rows.new.items ≡ filter (λ n. not (has_null (key_at columns.now (rows_in grid.now) n))) rows.old.items }
{
    rows.retain(|row| lacks_null(grid, columns, *row));
}

/// The rows whose key has no NULL, in the order of their keys, those of one key in file order.
pub(crate) fn indexed_rows(
    alloc: Global,
    grid: &Grid,
    columns: &[ColId],
) -> Result<Vec<u32>, Memory>
    requires { length (rows_in grid.now) < 2 ^ 32 }
    ensures { IfOk result (λ rows. rows.items ≡ indexed_rows columns.now (rows_in grid.now)) }
{
    let mut rows = numbers(alloc, grid.len() as u32)?;
    leave_keys(grid, columns, &mut rows);
    if are_sorted(grid, columns) {
        return Ok(rows);
    }
    sort_rows(alloc, grid, columns, rows)
}
