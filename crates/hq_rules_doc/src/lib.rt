//! The rules of documents (GraphQL October 2021, 5.2, 5.5, 5.7, 5.8): the first one that a document violates, and where. Those of
//! what fragments reach are asked of hq_rules_reach.
#![tactic(auto)]

mod first;
mod rules;

pub use first::first_doc_fault;
