//! A checker of statements, whoever wrote them: whether one can show more than a session's view. A yes implies that the statement
//! means the same over all databases that agree for the session.
#![tactic(auto)]

mod check;
mod grants;
mod masks;
mod numbers;
mod scans;
mod walk;
mod written;

pub use check::{Verdict, confine};
