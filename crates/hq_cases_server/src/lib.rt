//! Cases about the words of a run, who the caller is, and connections, of links in memory and of sockets.
#![tactic(auto)]

mod connections;
mod loopback;
mod replies;
mod secrets;
mod subject;
mod words;

pub use subject::About;
