//! Fronts of texts: numbers by whose order most texts are told apart, without a look at them.
ghost use Rattle.std.specs.Prelude.{◌≡◌, ◌<◌, map, slice_index_or};
ghost use Rattle.hq_sql_cells.specs.Fronts.{AreBytes, first_bytes, first_front, front_cmp, front_of};
ghost use Rattle.hq_sql_cells.specs.View.{cell_view};

use crate::Cell;
use std::cmp::Ordering;

// The byte at a place, and zero behind the last one.
fn byte_at(bytes: &[u8], at: usize) -> u64
    ensures byte { result ≡ slice_index_or bytes.now at 0 }
    ensures small { result < 256 }
{
    match bytes.get(at) {
        Some(byte) => *byte as u64,
        None => 0,
    }
}

// The first eight bytes of a text as one number.
fn front_of(bytes: &[u8]) -> u64
    ensures front { result ≡ front_of bytes.now }
    ensures bytes { AreBytes bytes.now }
{
    let mut front = 0;
    for at in 0..8 {
        front = front * 256 + byte_at(bytes, at);
    }
    front
}

/// The front of the first of these keys, where that is a text.
pub(crate) fn first_front(keys: &[Cell<'_>]) -> Option<u64>
    ensures front { result ≡ first_front (map cell_view keys.now) }
    ensures bytes { AreBytes (first_bytes (map cell_view keys.now)) }
{
    match keys.first() {
        Some(Cell::Text(text)) => Some(front_of(text.as_bytes())),
        _ => None,
    }
}

/// What the fronts tell of the order by the first key.
pub(crate) fn front_cmp(desc: bool, left: Option<u64>, right: Option<u64>) -> Ordering
    ensures { result ≡ front_cmp desc left right }
{
    match (left, right) {
        (Some(left), Some(right)) => if desc {
            right.cmp(&left)
        } else {
            left.cmp(&right)
        },
        _ => Ordering::Equal,
    }
}
