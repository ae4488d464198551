//! The laws of requests: what a body makes is well-formed, and what is valid is built.
#![tactic(auto)]

mod build_laws;
mod form_laws;

pub use build_laws::{valid_builds, valid_faults};
pub use form_laws::{requests_are_built, requests_are_formed};
