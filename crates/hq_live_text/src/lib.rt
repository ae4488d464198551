//! The live text of a request: its compact text, in which each keyword `subscription` of the query text is written as `query`, so
//! that the engine, which answers queries alone, answers what is subscribed to.
#![tactic(auto)]

mod document;
mod keyword;
mod request;

pub use request::{LiveText, live_text};
