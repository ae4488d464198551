//! The cells of keys, and their order.
ghost use Rattle.std.specs.Prelude.{◌≡◌, map};
ghost use Rattle.hq_base.specs.Cells.{cell_of, cell_cmp, kind_of};
ghost use Rattle.hq_model.specs.Logic.{null_test, order_between};
ghost use Rattle.hq_load_index.specs.Keys.{cell_view, cell_in, key_in, keys_cmp, has_null};

use hq_base::{Txt, Val};
use hq_model::ColId;
use std::cmp::Ordering;

/// A cell of a key. Its text is lent.
#[derive(Clone, Copy)]
pub enum KeyCell<'k> {
    Null,
    Int(i128),
    Text(&'k Txt),
    Bool(bool),
}

impl<'k> KeyCell<'k> {
    /// The cell of a table's value.
    pub fn of(value: &'k Val) -> KeyCell<'k>
        ensures { cell_view result ≡ cell_of value.now }
    {
        match value {
            Val::Null => KeyCell::Null,
            Val::Int(n) => KeyCell::Int(*n as i128),
            Val::Text(text) => KeyCell::Text(text),
            Val::Bool(b) => KeyCell::Bool(*b),
        }
    }
}

/// Whether the cell is NULL.
pub(crate) fn is_null(cell: KeyCell<'_>) -> bool
    ensures { result ≡ null_test (cell_view cell.entry) }
{
    match cell {
        KeyCell::Null => true,
        KeyCell::Int(_) | KeyCell::Text(_) | KeyCell::Bool(_) => false,
    }
}

// The number of a cell's kind.
fn kind(cell: KeyCell<'_>) -> u8
    ensures { result ≡ kind_of (cell_view cell.entry) }
{
    match cell {
        KeyCell::Null => 0,
        KeyCell::Int(_) => 1,
        KeyCell::Text(_) => 2,
        KeyCell::Bool(_) => 3,
    }
}

// How two cells of one kind are ordered; None where one is NULL or the kinds differ.
fn order_between(left: KeyCell<'_>, right: KeyCell<'_>) -> Option<Ordering>
    ensures { result ≡ order_between (cell_view left.entry) (cell_view right.entry) }
{
    match (left, right) {
        (KeyCell::Int(left), KeyCell::Int(right)) => Some(left.cmp(&right)),
        (KeyCell::Text(left), KeyCell::Text(right)) => Some(left.as_bytes().cmp(right.as_bytes())),
        (KeyCell::Bool(left), KeyCell::Bool(right)) => Some(left.cmp(&right)),
        _ => None,
    }
}

// The order of cells, by kind and then by value.
#[tactic(auto, using(hq_model::proofs::CellOrders::cell_cmp_between, hq_model::proofs::CellOrders::cell_cmp_kinds))]
fn cell_cmp(left: KeyCell<'_>, right: KeyCell<'_>) -> Ordering
    ensures { result ≡ cell_cmp (cell_view left.entry) (cell_view right.entry) }
{
    match order_between(left, right) {
        Some(order) => order,
        None => kind(left).cmp(&kind(right)),
    }
}

/// The cell of a row in a column, NULL where the row has none.
pub(crate) fn cell_at(row: &[Val], column: ColId) -> KeyCell<'_>
    ensures { cell_view result ≡ cell_in row.now column }
{
    match row.get(column.at()) {
        Some(value) => KeyCell::of(value),
        None => KeyCell::Null,
    }
}

/// The order of a row's key to a key.
pub(crate) fn key_cmp(columns: &[ColId], row: &[Val], key: &[KeyCell<'_>]) -> Ordering
    ensures { result ≡ keys_cmp (key_in columns.now row.now) (map cell_view key.now) }
{
    match columns.split_first() {
        None => {
            if key.is_empty() {
                return Ordering::Equal;
            }
            Ordering::Less
        }
        Some((column, columns)) => match key.split_first() {
            None => Ordering::Greater,
            Some((cell, key)) => match cell_cmp(cell_at(row, *column), *cell) {
                Ordering::Less => Ordering::Less,
                Ordering::Equal => key_cmp(columns, row, key),
                Ordering::Greater => Ordering::Greater,
            },
        },
    }
}

/// The order of the keys of two rows.
pub(crate) fn rows_cmp(columns: &[ColId], left: &[Val], right: &[Val]) -> Ordering
    ensures { result ≡ keys_cmp (key_in columns.now left.now) (key_in columns.now right.now) }
{
    match columns.split_first() {
        None => Ordering::Equal,
        Some((column, columns)) => {
            match cell_cmp(cell_at(left, *column), cell_at(right, *column)) {
                Ordering::Less => Ordering::Less,
                Ordering::Equal => rows_cmp(columns, left, right),
                Ordering::Greater => Ordering::Greater,
            }
        }
    }
}

/// Whether the key of a row has a NULL.
pub(crate) fn row_has_null(columns: &[ColId], row: &[Val]) -> bool
    ensures { result ≡ has_null (key_in columns.now row.now) }
{
    for column in columns {
        if is_null(cell_at(row, *column)) {
            return true;
        }
    }
    false
}

/// Whether a key has a NULL.
pub(crate) fn key_has_null(key: &[KeyCell<'_>]) -> bool
    ensures { result ≡ has_null (map cell_view key.now) }
{
    for cell in key {
        if is_null(*cell) {
            return true;
        }
    }
    false
}
