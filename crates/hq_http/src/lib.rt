//! A connection of HTTP/1.1: requests are read, answered and replied to, one after the other, byte for byte.
//!
//! `GET /healthz` is answered here, and `POST /v1/graphql` by a responder. All else, and each request that can't be read,
//! gets a fault.
#![tactic(auto)]

mod await_next;
mod connection;
mod end;
mod headers;
mod pending;
mod reply;
mod respond;
mod responder;
mod send;

pub use connection::serve_connection;
pub use end::ConnEnd;
pub use responder::{Answer, Responder};
