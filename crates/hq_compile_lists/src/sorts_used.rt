//! The columns of a row that sort keys use.
ghost use Rattle.std.specs.Prelude.{◌≡◌, ◌++◌, IfOk, OnOk, map};
ghost use Rattle.hq_translation.specs.Sorts.{last_used, used_by, used_sorts};
ghost use Rattle.hq_compile_lists.specs.RowSorts.{row_sort_view};

use crate::sorts::RowSort;
use hq_base::{List, Memory};
use hq_model::{ColId, ColList, RelId};
use std::alloc::Global;

/// The column that a sort key uses at the last table of its relationships.
pub(crate) fn last_used(alloc: Global, through: &[RelId], column: ColId) -> Result<ColList, Memory>
    ensures { IfOk result (λ columns. columns ≡ last_used through.now column) }
{
    let mut columns = List::new(alloc);
    match through {
        [] => columns.push(column)?,
        [_, ..] => (),
    }
    Ok(columns)
}

// Adds the column that a sort key uses, where it reads a shown cell of the row itself.
fn add_used_sort(sort: &RowSort, columns: &mut ColList) -> Result<(), Memory>
    ensures { OnOk result (columns.new ≡ columns.old ++ used_by sort.now.own sort.now.through sort.now.column) }
{
    if sort.own {
        return Ok(());
    }
    match sort.through.as_slice() {
        [] => columns.push(sort.column),
        [_, ..] => Ok(()),
    }
}

/// Adds the shown columns of the row that sort keys use.
pub fn add_used_sorts(sorts: &[RowSort], columns: &mut ColList) -> Result<(), Memory>
    ensures { OnOk result (columns.new ≡ columns.old ++ used_sorts (map row_sort_view sorts.now)) }
{
    for sort in sorts {
        add_used_sort(sort, columns)?;
    }
    Ok(())
}
