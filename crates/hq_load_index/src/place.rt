//! Where a key stands among the entries of an index.
ghost use Rattle.std.specs.Prelude.{◌≡◌, ◌+◌, ◌^◌, ◌<◌, ◌≤◌, ℕ, length, map, true, false, slice_index_or};
ghost use Rattle.hq_load_index.specs.Grids.{rows_in};
ghost use Rattle.hq_load_index.specs.Indexes.{indexed_rows};
ghost use Rattle.hq_load_index.specs.Keys.{cell_view};
ghost use Rattle.hq_load_index.specs.Places.{stands_before, IsPlace};

use crate::key::KeyCell;
use crate::steps::compared;
use crate::{Grid, Steps};
use hq_model::ColId;
use std::cmp::Ordering;
use std::sync::ledger::Ledger;

/// A place among the entries, and how many comparisons found it.
#[derive(Clone, Copy)]
pub(crate) struct Place {
    pub place: usize,
    pub compared: u64,
}

// Whether an entry stands before a key, or has it where `after` asks for that too.
fn stands_before<L: Ledger>(
    columns: &[ColId],
    grid: &Grid,
    entry: u32,
    key: &[KeyCell<'_>],
    after: bool,
    steps: &mut Steps<L>,
) -> bool
    ensures stands { result ≡ stands_before columns.now (rows_in grid.now) (map cell_view key.now) after entry }
    ensures counted { steps.new ≡ steps.old + 1 }
{
    match compared(columns, grid.row(entry as usize), key, steps) {
        Ordering::Less => true,
        Ordering::Equal => after,
        Ordering::Greater => false,
    }
}

/// The first entry that does not stand before a key. Those below `low` do.
pub(crate) fn first_behind<L: Ledger>(
    columns: &[ColId],
    grid: &Grid,
    entries: &[u32],
    key: &[KeyCell<'_>],
    after: bool,
    low: usize,
    steps: &mut Steps<L>,
) -> Place
    requires index { entries.now ≡ indexed_rows columns.now (rows_in grid.now) }
    requires within { low ≤ length entries.now }
    requires before { (i : ℕ) → i < low → stands_before columns.now (rows_in grid.now) (map cell_view key.now) after (slice_index_or entries.now i 0) ≡ true }
    ensures place { IsPlace columns.now (rows_in grid.now) entries.now (map cell_view key.now) after result.place }
    ensures above { low ≤ result.place }
    ensures counted { steps.new ≡ steps.old + result.compared }
    ensures few { (b : ℕ) → length entries.now < 2 ^ b → result.compared ≤ b }
{
    let mut low = low;
    let mut high = entries.len();
    let mut compared = 0u64;
    while low < high {
        let middle = low + (high - low) / 2;
        compared += 1;
        if stands_before(columns, grid, entries[middle], key, after, steps) {
            low = middle + 1;
        } else {
            high = middle;
        }
    }
    Place {
        place: low,
        compared,
    }
}

/// The first entry that does not stand before a key.
pub(crate) fn start_of<L: Ledger>(
    columns: &[ColId],
    grid: &Grid,
    entries: &[u32],
    key: &[KeyCell<'_>],
    steps: &mut Steps<L>,
) -> Place
    requires { entries.now ≡ indexed_rows columns.now (rows_in grid.now) }
    ensures place { IsPlace columns.now (rows_in grid.now) entries.now (map cell_view key.now) false result.place }
    ensures counted { steps.new ≡ steps.old + result.compared }
    ensures few { (b : ℕ) → length entries.now < 2 ^ b → result.compared ≤ b }
{
    first_behind(columns, grid, entries, key, false, 0, steps)
}

/// The first entry behind those of a key, of which the first one that does not stand before the key is `start`. Most keys
/// have few rows, so the next two entries are looked at first.
pub(crate) fn end_of<L: Ledger>(
    columns: &[ColId],
    grid: &Grid,
    entries: &[u32],
    key: &[KeyCell<'_>],
    start: usize,
    steps: &mut Steps<L>,
) -> Place
    requires index { entries.now ≡ indexed_rows columns.now (rows_in grid.now) }
    requires start { IsPlace columns.now (rows_in grid.now) entries.now (map cell_view key.now) false start }
    ensures place { IsPlace columns.now (rows_in grid.now) entries.now (map cell_view key.now) true result.place }
    ensures above { start ≤ result.place }
    ensures counted { steps.new ≡ steps.old + result.compared }
    ensures few { (b : ℕ) → length entries.now < 2 ^ b → result.compared ≤ b + 2 }
{
    let count = entries.len();
    let mut end = start;
    let mut compared = 0u64;
    while compared < 2 && end < count {
        compared += 1;
        if !stands_before(columns, grid, entries[end], key, true, steps) {
            return Place {
                place: end,
                compared,
            };
        }
        end += 1;
    }
    let rest = first_behind(columns, grid, entries, key, true, end, steps);
    Place {
        place: rest.place,
        compared: compared + rest.compared,
    }
}
