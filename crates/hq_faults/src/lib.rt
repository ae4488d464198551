//! The faults of a request, and how each is told.
#![tactic(auto)]

mod fault_text;
mod faults;

pub use fault_text::{fault_json, want_text};
pub use faults::{BodyFault, RequestFault, fault_at};
