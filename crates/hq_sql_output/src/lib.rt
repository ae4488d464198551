//! The JSON that a statement means, written as text at all levels: no rows are made, and no trees are built, of what can be
//! written as it is read.
#![tactic(auto)]

mod elements;
mod grouped;
mod listed;
mod parts;
mod places;
mod statement;
mod table_rows;
mod written;

pub use statement::answer;
