//! The program's responder: it asks a hook who the caller is, and the engine what the reply is.
#![tactic(auto)]

mod reply;
mod responder;
mod serving;

pub use responder::EngineResponder;
pub use serving::{Served, serve_by_secret};
