//! Talks of live queries with the peers of a hall, one after the other, with a line for each.
#![tactic(auto)]

mod line;
mod serving;

pub use serving::serve_talks;
