//! The entries of an index over one column whose rows meet comparisons of it with constants.
ghost use Rattle.std.specs.Prelude.{◌≡◌, ◌∷◌, ◌<◌, ◌≤◌, ℕ, [], true, length, IfOk, OnOk};
ghost use Rattle.std.specs.Ordering.{nat_cmp};
ghost use Rattle.hq_base.specs.Lists.{sort};
ghost use Rattle.hq_load_index.specs.Indexes.{IsOver, columns_of, counted, entries_of};
ghost use Rattle.hq_load_index.specs.Keys.{cell_view};
ghost use Rattle.hq_load_index.specs.Places.{IsPlace};
ghost use Rattle.hq_sql_constants.specs.Ranged.{HaveSame, IsIn, Narrows, StandsBetween};
ghost use Rattle.hq_sql_scans.specs.Positions.{positions_of};

use crate::marked::{marks_of, places_marked};
use crate::ranged::Bound;
use hq_base::Memory;
use hq_load_index::Index;
use hq_load_tables::Rows;
use hq_model::{ColId, Op};
use hq_sql_scans::positions::Positions;
use std::alloc::Global;
use std::slice;

/// The entries from one on, up to, and without, another.
#[derive(Clone, Copy)]
pub(crate) struct Between {
    pub from: usize,
    pub to: usize,
}

// Those of them from a place on.
fn from_on(span: Between, place: usize) -> Between
    requires { span.from ≤ span.to }
    ensures ordered { result.from ≤ result.to }
    ensures within { result.to ≤ span.to }
    ensures keeps { (i : ℕ) → IsIn span i → place ≤ i → IsIn result i }
{
    if place <= span.from {
        return span;
    }
    if place > span.to {
        return Between {
            from: span.to,
            to: span.to,
        };
    }
    Between {
        from: place,
        to: span.to,
    }
}

// Those of them before a place.
fn up_to(span: Between, place: usize) -> Between
    requires { span.from ≤ span.to }
    ensures ordered { result.from ≤ result.to }
    ensures within { result.to ≤ span.to }
    ensures keeps { (i : ℕ) → IsIn span i → i < place → IsIn result i }
{
    if place >= span.to {
        return span;
    }
    if place < span.from {
        return Between {
            from: span.from,
            to: span.from,
        };
    }
    Between {
        from: span.from,
        to: place,
    }
}

// The first entry that does not stand before the constant of a comparison, and with `after` the first one behind those that are it.
fn place_of(rows: &Rows, index: &Index, column: ColId, bound: &Bound<'_>, after: bool) -> usize
    requires over { IsOver rows.now index.now }
    requires columns { columns_of index.now ≡ column ∷ [] }
    ensures { IsPlace (column ∷ []) rows.now (entries_of index.now) (cell_view bound.now.value ∷ []) after result }
{
    index.place(rows.grid(), slice::from_ref(&bound.value), after)
}

// Those of them whose rows meet a comparison.
#[tactic(auto, using(crate::proofs::RangeEntries::narrows_gt, crate::proofs::RangeEntries::narrows_ge, crate::proofs::RangeEntries::narrows_lt, crate::proofs::RangeEntries::narrows_le))]
fn narrowed(rows: &Rows, index: &Index, column: ColId, bound: &Bound<'_>, span: Between) -> Between
    requires over { IsOver rows.now index.now }
    requires columns { columns_of index.now ≡ column ∷ [] }
    requires ordered { span.from ≤ span.to }
    ensures { Narrows column rows.now (entries_of index.now) bound.now span result }
{
    match bound.op {
        Op::Gt => from_on(span, place_of(rows, index, column, bound, true)),
        Op::Ge => from_on(span, place_of(rows, index, column, bound, false)),
        Op::Lt => up_to(span, place_of(rows, index, column, bound, false)),
        Op::Le => up_to(span, place_of(rows, index, column, bound, true)),
        Op::Eq | Op::Ne => span,
    }
}

/// The entries of an index whose rows meet comparisons in its column.
#[tactic(auto, using(crate::proofs::RangeEntries::span_first, crate::proofs::RangeEntries::span_more, crate::proofs::RangeEntries::span_end))]
pub(crate) fn span_of(rows: &Rows, index: &Index, column: ColId, bounds: &[Bound<'_>]) -> Between
    requires over { IsOver rows.now index.now }
    requires columns { columns_of index.now ≡ column ∷ [] }
    ensures { StandsBetween column rows.now (entries_of index.now) bounds.now result }
{
    let mut span = Between {
        from: 0,
        to: index.len(),
    };
    for bound in bounds {
        span = narrowed(rows, index, column, bound, span);
    }
    span
}

fn sort_places(places: &mut Vec<u32>) -> Result<(), Memory>
    ensures { OnOk result (places.new.items ≡ sort nat_cmp places.old.items) }
{
    places.sort_by(|left, right| left.cmp(right))?;
    Ok(())
}

// These rows in file order.
fn in_file_order(alloc: Global, found: &[u32]) -> Result<Vec<u32>, Memory>
    ensures { IfOk result (λ places. places.items ≡ sort nat_cmp found.now) }
{
    let mut places = Vec::with_capacity(alloc, found.len())?;
    places.extend_from_slice(found)?;
    sort_places(&mut places)?;
    Ok(places)
}

// Fewer rows are sorted, others are marked.
const FEW: usize = 1024;

// Whether these places are those of all rows, of which few are found.
fn are_few_of_all(rows: &Rows, positions: Positions<'_>, found: &[u32]) -> bool
    ensures { result ≡ true → positions_of positions.entry ≡ counted 0 (length rows.now) }
{
    match positions {
        Positions::All(number) => number == rows.len() && found.len() <= FEW,
        Positions::Entries(_)
        | Positions::Ordered(_)
        | Positions::Backward(_)
        | Positions::Reversed(_) => false,
    }
}

/// Those of the places that the entries between two are of.
pub(crate) fn places_between(
    alloc: Global,
    rows: &Rows,
    index: &Index,
    column: ColId,
    bounds: &[Bound<'_>],
    span: Between,
    positions: Positions<'_>,
) -> Result<Vec<u32>, Memory>
    requires over { IsOver rows.now index.now }
    requires columns { columns_of index.now ≡ column ∷ [] }
    requires some { 0 < length bounds.now }
    requires between { StandsBetween column rows.now (entries_of index.now) bounds.now span }
    ensures { IfOk result (λ places. HaveSame column rows.now bounds.now places.items (positions_of positions.entry)) }
{
    let found = index.between(span.from, span.to);
    if are_few_of_all(rows, positions, found) {
        return in_file_order(alloc, found);
    }
    let marks = marks_of(alloc, rows.len(), found)?;
    places_marked(alloc, positions, marks.as_slice())
}
