//! Lists of rows of numbers.
ghost use Rattle.std.specs.Prelude.{◌≡◌, ◌⊎◌, ◌<◌, ℕ, length, IfOk, OnOk};
ghost use Rattle.std.specs.List.{Contains};
ghost use Rattle.hq_overlap_sets.specs.Rows.{row_at};

use hq_base::Memory;
use std::alloc::Global;

/// Adds numbers to a row; nothing where there is no such row.
pub fn extend_row(rows: &mut Vec<Vec<usize>>, at: usize, more: &[usize]) -> Result<(), Memory>
    ensures { OnOk result ((c s : ℕ) → Contains (row_at rows.new.items c) s → Contains (row_at rows.old.items c) s ⊎ ((at ≡ c) × Contains more.now s)) }
{
    if at < rows.len() {
        rows[at].extend_from_slice(more)?;
    }
    Ok(())
}

/// Takes all numbers from a row.
pub fn clear_row(rows: &mut Vec<Vec<usize>>, at: usize)
    ensures { (c s : ℕ) → Contains (row_at rows.new.items c) s → Contains (row_at rows.old.items c) s }
{
    if at < rows.len() {
        rows[at].clear();
    }
}

/// Adds a number to a row; nothing where there is no such row.
pub fn push_row(rows: &mut Vec<Vec<usize>>, at: usize, number: usize) -> Result<(), Memory>
    ensures length { OnOk result (length rows.new.items ≡ length rows.old.items) }
    ensures kept { OnOk result ((c s : ℕ) → Contains (row_at rows.old.items c) s → Contains (row_at rows.new.items c) s) }
    ensures added { OnOk result (at < length rows.old.items → Contains (row_at rows.new.items at) number) }
    ensures only { OnOk result ((c s : ℕ) → Contains (row_at rows.new.items c) s → Contains (row_at rows.old.items c) s ⊎ ((at ≡ c) × (number ≡ s))) }
{
    if at < rows.len() {
        rows[at].push(number)?;
    }
    Ok(())
}

/// So many rows without numbers.
pub fn empty_rows(alloc: Global, count: usize) -> Result<Vec<Vec<usize>>, Memory>
    ensures length { IfOk result (λ rows. length rows.items ≡ count) }
    ensures empty { IfOk result (λ rows. (c s : ℕ) → Contains (row_at rows.items c) s → ⊥) }
{
    let mut rows = Vec::with_capacity(alloc, count)?;
    for _ in 0..count {
        rows.push(Vec::new(alloc))?;
    }
    Ok(rows)
}
