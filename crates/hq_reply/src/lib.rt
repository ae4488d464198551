//! The reply to a request: the text of its fault, or the object of its root fields.
#![tactic(auto)]

mod reply;
mod root;
mod tables;

pub use reply::{data_reply, fault_reply, tells_fault};
pub use tables::{has_table_field, tables_are_resolved};
