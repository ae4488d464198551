//! The evaluation of a statement over the tables that are pinned: the answer that it means.
#![tactic(auto)]

mod learn_keys;
mod learn_rows;
mod matchers;
mod plain;
mod remember;
mod statement;

pub use statement::eval;
