//! The cells that the evaluation of a statement works with: tests, sorts, groups, pages and aggregates.
#![tactic(auto)]

mod aggregate;
mod cell;
mod different;
mod front;
mod kept;
mod order;
mod page;
mod seen;
mod sorting;
mod truth;

pub use aggregate::{aggregated, counted};
pub use cell::Cell;
pub use kept::{Kept, first_kept, rows_of};
pub use order::{Direction, keys_cmp};
pub use page::paged;
pub use sorting::sorted_kept;
pub use truth::test_truth;
