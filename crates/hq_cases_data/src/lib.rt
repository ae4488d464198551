//! Cases about what describes a database: catalogs, metadata, filters, table files, and the schemas of roles.
#![tactic(auto)]

mod catalogs;
mod filters;
mod given;
mod metadata;
mod rows;
mod schemas;
mod subject;

pub use subject::About;
