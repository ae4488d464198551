//! A redacted copy of a database for a session: what it is, and that its numbers link what the relationships of the original link.
#![tactic(auto)]

mod laws;
mod refusal;

pub use laws::{first_numbers_are_least, numbers_link};
pub use refusal::CopyRefusal;
