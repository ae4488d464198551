//! The link to a database: a text of SQL in, the text of its JSON out.
#![tactic(auto)]

mod database;
mod refusal;

pub use database::Database;
pub use refusal::DbRefusal;
