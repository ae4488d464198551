//! Masked columns: the joins that show them, the columns that a condition uses, the `where` of a request, which reads
//! shown cells, and the first row behind a relationship.
#![tactic(auto)]

mod first;
mod masks;
mod permitted;
mod used;

pub use first::{FirstRow, remote_row};
pub use masks::mask_parts;
pub use permitted::where_predicate;
pub use used::add_columns;
