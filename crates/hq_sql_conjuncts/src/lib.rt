//! Which conditions of a statement mention no alias but these. What such a condition is at a row is the same whatever else is in
//! scope, so it can be known before a statement is walked.
#![tactic(auto)]

mod closed;
mod parts;
mod same;

pub use closed::{Names, is_closed};
pub use parts::split;
pub use same::{same_from, same_pred};
