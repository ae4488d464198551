//! The rules of what fragments reach (GraphQL October 2021, 5.5.1.4, 5.5.2.2 and 5.8.3 to 5.8.5), one module each, named as
//! graphql-js names them.
#![tactic(auto)]

mod components;
pub mod no_fragment_cycles;
mod no_undefined_variables;
pub mod no_unused_fragments;
mod no_unused_variables;
mod numbers;
mod summaries;
mod uses;
mod variable_places;
mod variables;
mod variables_in_allowed_position;

pub use variables::variable_use_fault;
