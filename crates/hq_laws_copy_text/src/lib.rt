//! What is written of a redacted copy is read back as the copy.
#![tactic(auto)]

mod laws;

pub use laws::parts_are_read_back;
