//! A database that answers every well-formed statement over tables that it pins.
#![tactic(auto)]

mod answer;
mod pinning;
mod sql_db;

pub use hq_sql_check::well_formed;
pub use sql_db::SqlDb;
