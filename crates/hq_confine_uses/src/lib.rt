//! Where the columns of a statement may stand: what is in scope, where the cell of a column comes from, runs of key columns, and the
//! worst fault of values, outputs and sort keys.
#![tactic(auto)]

mod columns;
mod faults;
mod known;
mod origins;
mod runs;
mod scope;
mod uses;

pub use faults::{Fault, missing, worse};
pub use known::Rules;
pub use origins::{column_place, output_origins, table_place};
pub use runs::has_run;
pub use scope::{Alias, Output, Passed, Shape, Shapes, push_outputs, shape_at};
pub use uses::{expr_fault, exprs_fault, orders_fault, outs_fault, shows_order};
