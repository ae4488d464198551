//! 5.3.2 Field Selection Merging: the least place of a later field of two that are selected together and cannot merge (GraphQL
//! October 2021).
#![tactic(auto)]

mod below;
mod closure;
mod first;
mod found;
mod gather;
mod groups;
mod lists;
mod refusal;
mod walk;

pub use first::{MOST_AT_FAULT, first_overlap};
pub use refusal::OverlapRefusal;
