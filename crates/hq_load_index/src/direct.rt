//! Where the keys of whole numbers begin among the entries: of each number from the least one on, if these lie close together. So
//! the place of such a key is read, where others are found by halving.
ghost use Rattle.std.specs.Prelude.{◌≡◌, ◌^◌, ◌<◌, ◌+ℤ◌, ◌∷◌, [], pos, IfOk, IfSome, length, slice_index_or};
ghost use Rattle.hq_base.specs.Cells.{int};
ghost use Rattle.hq_load_index.specs.Direct.{AreStarts, IsSpanOf};
ghost use Rattle.hq_load_index.specs.Grids.{rows_in};
ghost use Rattle.hq_load_index.specs.Indexes.{indexed_rows};
ghost use Rattle.hq_load_index.specs.Keys.{cell_in};

use crate::Grid;
use crate::span::Span;
use crate::whole::int_at;
use hq_base::Memory;
use hq_model::ColId;
use std::alloc::Global;

/// Of each whole number from the least one on, the first entry whose key is not less.
#[derive(Drop)]
pub(crate) struct Direct {
    pub least: i64,
    pub starts: Vec<u32>,
}

// Fewer entries are found by halving.
const FEW: usize = 16;

// How far a number stands behind the least one, if it is one of so many from this one on.
fn offset_of(least: i64, number: i128, count: usize) -> Option<usize>
    ensures { IfSome result (λ at. (number ≡ least +ℤ pos at) × (at < count)) }
{
    let behind = number.checked_sub(least as i128)?;
    let Ok(at) = usize::try_from(behind) else {
        return None;
    };
    if at < count {
        return Some(at);
    }
    None
}

// How far the whole number of an entry stands behind the least one, if it is one of so many from this one on.
fn offset_at(grid: &Grid, column: ColId, entry: u32, least: i64, count: usize) -> Option<usize>
    ensures { IfSome result (λ at. (cell_in (slice_index_or (rows_in grid.now) entry []) column ≡ int (least +ℤ pos at)) × (at < count)) }
{
    let number = int_at(grid.row(entry as usize), column)?;
    offset_of(least, number as i128, count)
}

// The places of the keys of so many whole numbers, from the least one on; None where an entry has none of them. Each entry is
// read once: the numbers behind that of the one before it, up to its own, begin at it.
fn starts_of(
    alloc: Global,
    column: ColId,
    grid: &Grid,
    entries: &[u32],
    least: i64,
    count: usize,
) -> Result<Option<Vec<u32>>, Memory>
    requires index { entries.now ≡ indexed_rows (column ∷ []) (rows_in grid.now) }
    requires few { length entries.now < 2 ^ 32 }
    ensures { IfOk result (λ found. IfSome found (λ starts. AreStarts (column ∷ []) (rows_in grid.now) entries.now least starts.items)) }
{
    let mut starts = Vec::with_capacity(alloc, count)?;
    for place in 0..entries.len() {
        let Some(at) = offset_at(grid, column, entries[place], least, count) else {
            return Ok(None);
        };
        starts.resize(starts.len().max(at + 1), place as u32)?;
    }
    starts.resize(count, entries.len() as u32)?;
    Ok(Some(starts))
}

// How many starts numbers from the least to the most have, one behind them among these; None where they don't lie close together.
fn count_of(least: i64, most: i64, number: usize) -> Option<usize> {
    let wide = most as i128 - least as i128;
    if number < FEW || wide < 0 || wide >= number as i128 * 2 {
        return None;
    }
    Some((wide as usize).saturating_add(2))
}

// The least and the most whole number of a column among entries.
fn bounds_of(grid: &Grid, column: ColId, entries: &[u32]) -> Option<(i64, i64)> {
    let first = *entries.first()?;
    let last = *entries.last()?;
    let least = int_at(grid.row(first as usize), column)?;
    let most = int_at(grid.row(last as usize), column)?;
    Some((least, most))
}

/// The places of the whole numbers of one column, where they lie close together.
pub(crate) fn direct_of(
    alloc: Global,
    columns: &[ColId],
    grid: &Grid,
    entries: &[u32],
) -> Result<Option<Direct>, Memory>
    requires { entries.now ≡ indexed_rows columns.now (rows_in grid.now) }
    ensures { IfOk result (λ found. IfSome found (λ d. AreStarts columns.now (rows_in grid.now) entries.now d.least d.starts.items)) }
{
    let [column] = columns else {
        return Ok(None);
    };
    if entries.len() > u32::MAX as usize {
        return Ok(None);
    }
    let Some((least, most)) = bounds_of(grid, *column, entries) else {
        return Ok(None);
    };
    let Some(count) = count_of(least, most, entries.len()) else {
        return Ok(None);
    };
    match starts_of(alloc, *column, grid, entries, least, count)? {
        Some(starts) => Ok(Some(Direct { least, starts })),
        None => Ok(None),
    }
}

/// The entries of a whole number, where they are told.
pub(crate) fn span_of(direct: &Direct, number: i128) -> Option<Span>
    ensures { IfSome result (IsSpanOf direct.now.least direct.now.starts.items number) }
{
    let starts = direct.starts.as_slice();
    let at = offset_of(direct.least, number, starts.len())?;
    if at + 1 >= starts.len() {
        return None;
    }
    Some(Span {
        from: starts[at] as usize,
        to: starts[at + 1] as usize,
        compared: 0,
    })
}
