//! Cases about what a document asks: the rules that it violates, the chosen operation, its variables, and the typed request.
#![tactic(auto)]

mod arguments;
mod fields;
mod given;
mod operations;
mod requests;
mod rules;
mod subject;
mod variables;

pub use subject::About;
