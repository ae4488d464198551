//! The command `copy`: one file of a redacted copy of a directory, for a caller.
#![tactic(auto)]

mod causes;
mod copying;

pub use copying::copy;
