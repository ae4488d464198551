//! The compiler: a typed request to the one statement that answers it.
#![tactic(auto)]

mod counts;
mod fields;
mod grants;
mod statement;
mod used;

pub use statement::compile;
