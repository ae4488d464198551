//! The compiled tree: the statement of a typed request as a definition, and the laws that it is well-formed for the catalog and
//! means what nested resolvers give.
#![tactic(auto)]

mod laws;
mod requests;

pub use laws::statements_mean_resolved;
pub use requests::{requests_are_asked, requests_mean_resolved};
