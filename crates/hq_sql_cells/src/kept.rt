//! Rows that WHERE kept, beside their sort keys and their values of DISTINCT ON (PostgreSQL, SELECT).
ghost use Rattle.std.specs.Prelude.{◌≡◌, IfOk, map};
ghost use Rattle.hq_base.specs.Lists.{firsts};
ghost use Rattle.hq_sql_cells.specs.Keys.{same_group};

use crate::Cell;
use crate::seen::{SeenCell, seen_cells};
use hq_base::Memory;
use std::alloc::Global;
use std::collections::BTreeSet;

/// A row that is kept: what it is sorted by, what it is grouped by, and the row itself, in whatever form.
#[derive(Drop)]
pub struct Kept<'d, T> {
    pub keys: Vec<Cell<'d>>,
    pub distinct: Vec<Cell<'d>>,
    pub row: T,
}

/// The rows alone, in the same order.
pub fn rows_of<'d, T: Drop>(alloc: Global, kept: Vec<Kept<'d, T>>) -> Result<Vec<T>, Memory>
    ensures { IfOk result (λ rows. rows.items ≡ map (λ k. k.row) kept.entry.items) }
{
    let mut rows = Vec::with_capacity(alloc, kept.len())?;
    for Kept { row, .. } in kept {
        rows.push(row)?;
    }
    Ok(rows)
}

/// DISTINCT ON: the first row of each group of those whose values are not distinct, in about n log n comparisons. NULL is
/// like NULL.
pub fn first_kept<'d, T: Drop>(
    alloc: Global,
    rows: Vec<Kept<'d, T>>,
) -> Result<Vec<Kept<'d, T>>, Memory>
    ensures { IfOk result (λ kept. kept.items ≡ firsts same_group rows.entry.items) }
{
    let mut groups: BTreeSet<Vec<SeenCell<'d>>> = BTreeSet::new(alloc);
    let mut kept = Vec::new(alloc);
    for row in rows {
        if groups.insert(seen_cells(alloc, &row.distinct)?)? {
            kept.push(row)?;
        }
    }
    Ok(kept)
}
