//! From a checked document to its typed request, or its first fault.
#![tactic(auto)]

mod ask;
mod bound;
mod conditions;
mod fields;
mod known;
mod laws;
mod looks;
mod request;
mod summaries;

pub use bound::bound_tables;
pub use conditions::Touched;
pub use laws::{bound_for_sessions, filters_refuse};
pub use request::{AskRefusal, build};
