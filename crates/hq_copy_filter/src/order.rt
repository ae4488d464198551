//! The order of rows by the cells of columns.
ghost use Rattle.std.specs.Prelude.{◌≡◌, false};
ghost use Rattle.hq_base.specs.Cells.{key_cmp};
ghost use Rattle.hq_model.specs.Permitted.{columns_cmp};
ghost use Rattle.hq_model.specs.Seen.{row_cell};

use crate::cells::cell_at;
use hq_base::Val;
use hq_model::ColId;
use hq_sql_cells::{Direction, keys_cmp};
use std::cmp::Ordering;
use std::slice;

const ASCENDING: Direction = Direction {
    desc: false,
    nulls_first: false,
};

// The order of two rows by the cells of a column, NULLs last.
fn column_cmp(column: ColId, left: &[Val], right: &[Val]) -> Ordering
    ensures { result ≡ key_cmp false false (row_cell left.now column) (row_cell right.now column) }
{
    let left = cell_at(left, column);
    let right = cell_at(right, column);
    keys_cmp(
        &[ASCENDING],
        slice::from_ref(&left),
        slice::from_ref(&right),
    )
}

/// The order of two rows by the cells of these columns, one column after the other.
pub(crate) fn columns_cmp(columns: &[ColId], left: &[Val], right: &[Val]) -> Ordering
    ensures { result ≡ columns_cmp columns.now left.now right.now }
{
    for column in columns {
        let order = column_cmp(*column, left, right);
        if order != Ordering::Equal {
            return order;
        }
    }
    Ordering::Equal
}
