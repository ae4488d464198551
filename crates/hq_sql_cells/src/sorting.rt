//! ORDER BY: rows beside the fronts of their first keys.
ghost use Rattle.std.specs.Prelude.{◌≡◌, IfOk, map};
ghost use Rattle.std.specs.Ordering.{on};
ghost use Rattle.hq_base.specs.Lists.{sort};
ghost use Rattle.hq_sql_cells.specs.Fronts.{AreBytes, first_bytes, first_front};
ghost use Rattle.hq_sql_cells.specs.Keys.{keys_cmp, keys_of};

use crate::front::{first_front, front_cmp};
use crate::{Direction, Kept, keys_cmp};
use hq_base::Memory;
use std::alloc::Global;
use std::cmp::Ordering;

// A kept row, and the front of its first key, where that is a text.
#[derive(Drop)]
struct Fronted<'d, T> {
    front: Option<u64>,
    kept: Kept<'d, T>,
    ghost is: { front ≡ first_front (keys_of kept) },
    ghost bytes: { AreBytes (first_bytes (keys_of kept)) },
}

fn with_fronts<'d, T: Drop>(
    alloc: Global,
    rows: Vec<Kept<'d, T>>,
) -> Result<Vec<Fronted<'d, T>>, Memory>
    ensures { IfOk result (λ all. map (λ f. f.kept) all.items ≡ rows.entry.items) }
{
    let mut all = Vec::with_capacity(alloc, rows.len())?;
    for kept in rows {
        let front = first_front(&kept.keys);
        all.push(Fronted { front, kept })?;
    }
    Ok(all)
}

fn without_fronts<'d, T: Drop>(
    alloc: Global,
    all: Vec<Fronted<'d, T>>,
) -> Result<Vec<Kept<'d, T>>, Memory>
    ensures { IfOk result (λ rows. rows.items ≡ map (λ f. f.kept) all.entry.items) }
{
    let mut rows = Vec::with_capacity(alloc, all.len())?;
    for Fronted { kept, .. } in all {
        rows.push(kept)?;
    }
    Ok(rows)
}

// The order of two rows: that of their fronts where these differ.
#[tactic(auto, using(crate::proofs::Fronts::fronts_tell, crate::proofs::Fronts::no_keys))]
fn fronted_cmp<T>(order: &[Direction], left: &Fronted<'_, T>, right: &Fronted<'_, T>) -> Ordering
    ensures { result ≡ keys_cmp order.now (keys_of left.now.kept) (keys_of right.now.kept) }
{
    let Some(direction) = order.first() else {
        return Ordering::Equal;
    };
    match front_cmp(direction.desc, left.front, right.front) {
        Ordering::Equal => keys_cmp(order, &left.kept.keys, &right.kept.keys),
        other => other,
    }
}

/// ORDER BY: the rows by their keys, in n log n comparisons. Rows whose keys are equal keep their order.
pub fn sorted_kept<'d, T: Drop>(
    alloc: Global,
    order: &[Direction],
    rows: Vec<Kept<'d, T>>,
) -> Result<Vec<Kept<'d, T>>, Memory>
    ensures { IfOk result (λ all. all.items ≡ sort (on keys_of (keys_cmp order.now)) rows.entry.items) }
{
    let mut all = with_fronts(alloc, rows)?;
    all.sort_by(|left, right| fronted_cmp(order, left, right))?;
    without_fronts(alloc, all)
}
