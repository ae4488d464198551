//! The schema of each role that a session may have, derived once, and laws of such schemas.
#![tactic(auto)]

mod laws;
mod roles;

pub use laws::{leads_where_permitted, names_differ};
pub use roles::{RoleSchemas, roles_in};
