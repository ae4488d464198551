//! Rows in the order of the whole numbers of one column.
ghost use Rattle.std.specs.Prelude.{◌≡◌, ◌∷◌, [], IfOk, IfSome, OnOk, map};
ghost use Rattle.std.specs.Ordering.{int_cmp, on};
ghost use Rattle.hq_base.specs.Cells.{int};
ghost use Rattle.hq_base.specs.Lists.{sort};
ghost use Rattle.hq_load_index.specs.Grids.{rows_in};
ghost use Rattle.hq_load_index.specs.Indexes.{by_key};
ghost use Rattle.hq_load_index.specs.Keys.{cell_in};
ghost use Rattle.hq_load_index.specs.Whole.{AreNumbered, row_of};

use crate::Grid;
use hq_base::{Memory, Val};
use hq_model::ColId;
use std::alloc::Global;

/// A row, by its number, and the whole number that is its key.
#[derive(Clone, Copy)]
pub(crate) struct Numbered {
    pub key: i64,
    pub row: u32,
}

/// The whole number in a column of a row, where one is there.
pub(crate) fn int_at(row: &[Val], column: ColId) -> Option<i64>
    ensures { IfSome result (λ n. cell_in row.now column ≡ int n) }
{
    match row.get(column.at()) {
        Some(Val::Int(n)) => Some(*n),
        _ => None,
    }
}

// The rows with the whole numbers of this column, where each has one.
fn with_numbers(
    alloc: Global,
    grid: &Grid,
    column: ColId,
    rows: &[u32],
) -> Result<Option<Vec<Numbered>>, Memory>
    ensures { IfOk result (λ found. IfSome found (λ all. AreNumbered column (rows_in grid.now) rows.now all.items)) }
{
    let mut all = Vec::with_capacity(alloc, rows.len())?;
    for row in rows {
        let Some(key) = int_at(grid.row(*row as usize), column) else {
            return Ok(None);
        };
        all.push(Numbered { key, row: *row })?;
    }
    Ok(Some(all))
}

fn sort_numbered(all: &mut Vec<Numbered>) -> Result<(), Memory>
    ensures { OnOk result (all.new.items ≡ sort (on (λ x. x.key) int_cmp) all.old.items) }
{
    all.sort_by(|left, right| left.key.cmp(&right.key))?;
    Ok(())
}

fn rows_of(alloc: Global, all: &[Numbered]) -> Result<Vec<u32>, Memory>
    ensures { IfOk result (λ rows. rows.items ≡ map row_of all.now) }
{
    let mut rows = Vec::with_capacity(alloc, all.len())?;
    for numbered in all {
        rows.push(numbered.row)?;
    }
    Ok(rows)
}

/// The rows in the order of this column, those of one key in their order, where each has a whole number there.
pub(crate) fn sorted_by_number(
    alloc: Global,
    grid: &Grid,
    column: ColId,
    rows: &[u32],
) -> Result<Option<Vec<u32>>, Memory>
    ensures { IfOk result (λ found. IfSome found (λ sorted. sorted.items ≡ sort (by_key (column ∷ []) (rows_in grid.now)) rows.now)) }
{
    let Some(mut all) = with_numbers(alloc, grid, column, rows)? else {
        return Ok(None);
    };
    sort_numbered(&mut all)?;
    Ok(Some(rows_of(alloc, &all)?))
}
