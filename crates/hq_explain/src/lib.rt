//! What is told to a person of a request: of its fault, where it stands, what stands there, and what the role's schema has in its
//! place; of one that is accepted, the tables that it touches and its statement. What must be right for a program stands in front.
#![tactic(auto)]

mod accepted;
mod arguments;
mod body;
mod directives;
mod fault;
mod fields;
mod filter;
mod fragments;
mod front;
mod layout;
mod lists;
mod operations;
mod role_faults;
mod sentence;
mod subject;
mod text;
mod types;
mod values;
mod variables;

pub use accepted::accepted_words;
pub use fault::fault_words;
pub use front::fault_front;
