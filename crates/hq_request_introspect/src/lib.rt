//! The answers to `__schema` and `__type` over the schema of a role (GraphQL October 2021, section 4.2: schema introspection).
#![tactic(auto)]

mod by_name;
mod directive;
mod field_name;
mod members;
mod node;
mod root;
mod select;
mod texts;
mod type_kind;
mod types;

pub use root::put_answer;
