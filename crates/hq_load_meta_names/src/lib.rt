//! Finds the names of a metadata that stand twice in the schema of `admin`: two types, two root fields, two fields or
//! inputs of one type, or a scalar of an opaque column and another type.
#![tactic(auto)]

mod check;
mod fixed;
mod known;
mod own;
mod refusal;
mod scalars;
mod shown;
mod texts;
mod types;

pub use check::check_names;
pub use refusal::NameRefusal;
