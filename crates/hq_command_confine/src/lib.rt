//! The command `confine`: whether a statement from other hands can show more than a caller may see.
#![tactic(auto)]

mod confining;
mod judging;
mod laws;

pub use confining::confine;
pub use laws::{one_line_is_due, own_statements_are_confined};
