//! The command `serve`: a directory served at a door.
#![tactic(auto)]

mod serving;

pub use serving::serve;
