//! The selects of lists, and where the rows of a field begin.
#![tactic(auto)]

mod list;
mod needs;
mod order;
mod row;
mod sorts;
mod sorts_used;
mod start;
mod summary;
mod used;

pub use list::{ListBody, fold, list_body, list_rows, list_select};
pub use needs::needed;
pub use order::{SortParts, output_orders, sort_parts};
pub use row::{Row, empty_row, no_row, object, one_row};
pub use sorts::{RowSort, RowSortList, list_sorts};
pub use sorts_used::add_used_sorts;
pub use start::{ListStart, key_row, list_table, list_tie};
pub use summary::summary_select;
pub use used::{add_each, list_used};
