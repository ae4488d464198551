//! The orders of cells and of sort keys (PostgreSQL, ORDER BY, with COLLATE "C").
ghost use Rattle.std.specs.Prelude.{◌≡◌, map, drop};
ghost use Rattle.hq_base.specs.Cells.{kind_of, cell_cmp, null_rank, key_cmp};
ghost use Rattle.hq_base.specs.Aggregates.{first_cell};
ghost use Rattle.hq_model.specs.Logic.{order_between};
ghost use Rattle.hq_sql_cells.specs.View.{cell_view};
ghost use Rattle.hq_sql_cells.specs.Keys.{keys_cmp};

use crate::Cell;
use std::cmp::Ordering;

/// The direction of a sort key, and the end at which its NULLs stand.
#[derive(Clone, Copy, PartialEq, Eq)]
pub struct Direction {
    pub desc: bool,
    pub nulls_first: bool,
}

// The number of a cell's kind.
fn kind(cell: &Cell<'_>) -> u8
    ensures { result ≡ kind_of (cell_view cell.now) }
{
    match cell {
        Cell::Null => 0,
        Cell::Int(_) => 1,
        Cell::Text(_) => 2,
        Cell::Bool(_) => 3,
        Cell::Json(_) => 4,
    }
}

/// How two cells of one kind are ordered; None where one is NULL, or JSON, or the kinds differ.
pub fn order_between(left: &Cell<'_>, right: &Cell<'_>) -> Option<Ordering>
    ensures { result ≡ order_between (cell_view left.now) (cell_view right.now) }
{
    match (left, right) {
        (Cell::Int(left), Cell::Int(right)) => Some(left.cmp(right)),
        (Cell::Text(left), Cell::Text(right)) => Some(left.as_bytes().cmp(right.as_bytes())),
        (Cell::Bool(left), Cell::Bool(right)) => Some(left.cmp(right)),
        _ => None,
    }
}

/// The order of cells, by kind and then by value: whole numbers by value, texts by their bytes, false before true.
#[tactic(auto, using(hq_model::proofs::CellOrders::cell_cmp_between, hq_model::proofs::CellOrders::cell_cmp_kinds))]
pub fn cell_cmp(left: &Cell<'_>, right: &Cell<'_>) -> Ordering
    ensures { result ≡ cell_cmp (cell_view left.now) (cell_view right.now) }
{
    match order_between(left, right) {
        Some(order) => order,
        None => kind(left).cmp(&kind(right)),
    }
}

fn null_rank(nulls_first: bool, cell: &Cell<'_>) -> u8
    ensures { result ≡ null_rank nulls_first (cell_view cell.now) }
{
    if cell.is_null() == nulls_first { 0 } else { 1 }
}

// The order of two cells by one sort key.
fn key_cmp(direction: Direction, left: &Cell<'_>, right: &Cell<'_>) -> Ordering
    ensures { result ≡ key_cmp direction.desc direction.nulls_first (cell_view left.now) (cell_view right.now) }
{
    let first = direction.nulls_first;
    let nulls = null_rank(first, left).cmp(&null_rank(first, right));
    let cells = if direction.desc {
        cell_cmp(right, left)
    } else {
        cell_cmp(left, right)
    };
    nulls.then(cells)
}

// The order by the key at a place. A row that has no such key has NULL there.
#[tactic(auto, using(crate::proofs::KeyOrders::cell_at, crate::proofs::KeyOrders::no_cell_at))]
fn key_cmp_at(direction: Direction, left: &[Cell<'_>], right: &[Cell<'_>], at: usize) -> Ordering
    ensures { result ≡ key_cmp direction.desc direction.nulls_first (first_cell (drop at (map cell_view left.now))) (first_cell (drop at (map cell_view right.now))) }
{
    let null = Cell::Null;
    match (left.get(at), right.get(at)) {
        (Some(left), Some(right)) => key_cmp(direction, left, right),
        (Some(left), None) => key_cmp(direction, left, &null),
        (None, Some(right)) => key_cmp(direction, &null, right),
        (None, None) => Ordering::Equal,
    }
}

/// The order of two rows of sort keys: the first key that differs decides. Where a row has fewer keys than there are
/// directions, NULLs stand for the rest.
#[tactic(auto, using(crate::proofs::KeyOrders::keys_step, crate::proofs::KeyOrders::keys_other))]
pub fn keys_cmp(order: &[Direction], left: &[Cell<'_>], right: &[Cell<'_>]) -> Ordering
    ensures { result ≡ keys_cmp order.now (map cell_view left.now) (map cell_view right.now) }
{
    for (at, direction) in order.iter().enumerate() {
        match key_cmp_at(*direction, left, right, at) {
            Ordering::Equal => {}
            other => return other,
        }
    }
    Ordering::Equal
}
