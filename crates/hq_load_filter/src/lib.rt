//! Reads the filter of a permission in `metadata.json` (Hasura v2, row-level permissions) as a boolean expression over
//! a table.
//!
//! A filter is an object whose members all must hold. `_and` and `_or` have a list of filters and `_not` a filter; a
//! column's name in the database has an object of operators, or a value that is to equal the column; a relationship's
//! name has a filter over the remote table, and `_exists` one over any tracked table. A text that begins with `X-Hasura-`,
//! in any case, stands for the session variable of that name. Also the tables that a metadata file names.
#![tactic(auto)]

mod asked;
mod compared;
mod condition;
mod filter;
mod laws;
mod named;
mod operand;
mod operator;
mod refusal;
mod table;
mod variable;

pub use filter::read_filter;
pub use laws::nesting_is_bounded;
pub use refusal::FilterRefusal;
pub use table::{remote_at, table_at, tracked_table};
