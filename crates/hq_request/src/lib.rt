//! From the body of a request to its typed request, or its first fault. There is no database here.
#![tactic(auto)]

mod body;
mod laws;
mod operation;
mod reading;
mod refusal;
mod typed_request;
mod validation;

pub use laws::requests_are_made;
pub use refusal::RequestRefusal;
pub use typed_request::request;
