//! Cells of rows.
ghost use Rattle.std.specs.Prelude.{◌≡◌};
ghost use Rattle.hq_base.specs.Cells.{cell_of};
ghost use Rattle.hq_copy_filter.specs.Equal.{is_equal};
ghost use Rattle.hq_sql_cells.specs.View.{cell_view};
ghost use Rattle.hq_model.specs.Logic.{is_true, equal};
ghost use Rattle.hq_model.specs.Seen.{row_cell, linked_by};

use hq_base::{Val, compare};
use hq_model::{ColId, Pair};
use hq_sql_cells::Cell;
use std::cmp::Ordering;

/// The cell of a row in a column; NULL beyond its columns.
pub(crate) fn cell_at(row: &[Val], column: ColId) -> Cell<'_>
    ensures { cell_view result ≡ row_cell row.now column }
{
    match row.get(column.at()) {
        Some(value) => Cell::of(value),
        None => Cell::Null,
    }
}

// Whether two values were found equal.
fn is_equal(order: Option<Ordering>) -> bool
    ensures { result ≡ is_equal order }
{
    match order {
        Some(order) => order == Ordering::Equal,
        None => false,
    }
}

// Whether a value equals the cell of a row, and so is not NULL.
fn equals_cell(value: &Val, row: &[Val], column: ColId) -> bool
    ensures { result ≡ is_true (equal (cell_of value.now) (row_cell row.now column)) }
{
    match row.get(column.at()) {
        Some(own) => is_equal(compare(value, own)),
        None => false,
    }
}

// Whether the cells of a pair are equal.
fn are_equal(row: &[Val], far: &[Val], pair: Pair) -> bool
    ensures { result ≡ is_true (equal (row_cell far.now pair.remote) (row_cell row.now pair.own)) }
{
    match far.get(pair.remote.at()) {
        Some(value) => equals_cell(value, row, pair.own),
        None => false,
    }
}

/// Whether a remote row is linked to a row: the cells of each pair are equal (Hasura, relationships).
pub fn are_linked(pairs: &[Pair], row: &[Val], far: &[Val]) -> bool
    ensures { result ≡ linked_by pairs.now row.now far.now }
{
    for pair in pairs {
        if !are_equal(row, far, *pair) {
            return false;
        }
    }
    true
}
