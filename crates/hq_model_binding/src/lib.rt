//! Binding: what a filter is for a session, each name in it replaced by the session's text, read as the column's type.
#![tactic(auto)]

mod binding;
mod operand;
mod session_list;

pub use binding::bind;
