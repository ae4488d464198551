//! The selection sets of a document in classes of those that may be put together, and what of them is in dispute.
#![tactic(auto)]

mod classes;
mod counts;
mod disputes;
mod laws;
mod leading;
mod partition;
mod sift;

pub use disputes::{Disputes, disputes_of};
pub use laws::{no_dispute_is_no_conflict, sifting_keeps_the_answer};
