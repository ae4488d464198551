//! The command `explain`: a request, or a directory that is refused, told to a person.
#![tactic(auto)]

mod explaining;

pub use explaining::explain;
