//! The walk over a statement: the rows of a select, the truth of a condition and the value of an expression in a scope.
#![tactic(auto)]

mod aggregates;
mod clauses;
mod costs;
mod joins;
mod own_columns;
mod pages;
mod scans;
mod truths;
mod values;

pub use clauses::{first, made_of, rows};
pub use joins::with_due;
pub use pages::{page, page_sorted};
pub use scans::{Piece, any_row, scan_from};
pub use truths::truth;
pub use values::value;
