//! The command `live`: talks of live queries over a directory.
#![tactic(auto)]

mod living;

pub use living::{WithFiles, live};
