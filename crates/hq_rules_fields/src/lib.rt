//! The rules of fields, arguments and values (GraphQL October 2021, 5.3, 5.4, 5.6): the first one that a document violates, and
//! where.
#![tactic(auto)]

mod first;
mod literals;
mod names;
mod required;
mod rules;

pub use first::first_field_fault;
