//! The first passes over a `metadata.json`: its top, and the tables that it tracks with their names. Also the nodes of such a
//! file, its paths and its refusals, for the passes over relationships and permissions.
#![tactic(auto)]

pub mod field;
pub mod found;
mod names;
pub mod node;
mod refusal;
pub mod top;
pub mod tracking;
pub mod version;

pub use refusal::MetaRefusal;
