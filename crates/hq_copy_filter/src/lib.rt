//! What a filter says of the rows of a database: its truth at a row, the rows of a table that it keeps, and the cells that show.
#![tactic(auto)]

mod cells;
mod loaded;
mod order;
mod permitted;
mod truths;

pub use cells::are_linked;
pub use loaded::{all_rows, pin_all};
pub use permitted::{permitted_rows, shown_value};
pub use truths::truth;
