//! Connections, served one after the other, with a line for each.
#![tactic(auto)]

mod line;
mod serving;

pub use serving::{ServeRefusal, serve};
