//! Keys that several rows have.
ghost use Rattle.std.specs.Prelude.{◌≡◌};
ghost use Rattle.hq_load_index.specs.Grids.{rows_in};
ghost use Rattle.hq_load_index.specs.Indexes.{sorted_rows};
ghost use Rattle.hq_load_index.specs.Repeats.{TellsRepeat, nearer, same_key, with_pair};

use crate::Grid;
use crate::key::rows_cmp;
use hq_model::ColId;

/// A row that has the key of an earlier one, by their numbers.
#[derive(Clone, Copy)]
pub struct Repeat {
    pub row: usize,
    pub earlier: usize,
}

fn nearer(found: Option<Repeat>, next: Repeat) -> Option<Repeat>
    ensures { result ≡ nearer found next }
{
    match found {
        Some(found) if found.row <= next.row => Some(found),
        _ => Some(next),
    }
}

fn has_one_key(grid: &Grid, columns: &[ColId], pair: Repeat) -> bool
    ensures { result ≡ same_key columns.now (rows_in grid.now) pair.earlier pair.row }
{
    rows_cmp(columns, grid.row(pair.earlier), grid.row(pair.row)).is_eq()
}

// A pair of rows beside what was found so far.
fn with_pair(grid: &Grid, columns: &[ColId], found: Option<Repeat>, pair: Repeat) -> Option<Repeat>
    ensures { result ≡ with_pair (same_key columns.now (rows_in grid.now) pair.earlier pair.row) found pair }
{
    if has_one_key(grid, columns, pair) {
        nearer(found, pair)
    } else {
        found
    }
}

/// The first row that has the key of an earlier one, among all rows in the order of their keys.
pub(crate) fn first_repeat(grid: &Grid, columns: &[ColId], sorted: &[u32]) -> Option<Repeat>
    requires { sorted.now ≡ sorted_rows columns.now (rows_in grid.now) }
    ensures { TellsRepeat columns.now (rows_in grid.now) result }
{
    let mut found = None;
    for at in 1..sorted.len() {
        let pair = Repeat {
            row: sorted[at] as usize,
            earlier: sorted[at - 1] as usize,
        };
        found = with_pair(grid, columns, found, pair);
    }
    found
}
