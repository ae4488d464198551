//! The texts of a redacted copy's files: the catalog, the metadata, and a table as CSV.
#![tactic(auto)]

mod building;
mod catalog;
mod clean;
mod columns;
mod metadata;
mod parts;
mod permissions;
mod refusal;
mod relationships;
mod tables;

pub use clean::copy_is_clean;
pub use parts::part;
pub use refusal::PartRefusal;
