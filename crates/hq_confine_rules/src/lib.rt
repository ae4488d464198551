//! The rules of the checker of statements from other hands, as a definition, and the law that each compiled statement meets them.
#![tactic(auto)]

mod laws;

pub use laws::{scans_keep_permitted_rows, statements_are_confined};
