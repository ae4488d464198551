//! The most rows of a list by what a role may see of a table. What the role sees is not made for it: no filter is copied.
#![tactic(auto)]

mod limit;
mod named;
mod own;
mod set;

pub use limit::limit_of;
pub use own::Limit;
