//! The text of a select: writing it, and reading it back exactly.
#![tactic(auto)]

mod clauses;
mod parts;
mod printing;
mod reading;
mod shape;
mod statement;
mod tested;

pub use hq_sql_expr::ReadRefusal;
pub use printing::print;
pub use statement::{one_spelling, one_tree, read};
