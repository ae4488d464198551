//! The laws of confined statements: what they are good for, and that hq's own are.
#![tactic(auto)]

mod meaning_laws;
mod own_laws;

pub use meaning_laws::confined_statements_mean_the_same;
pub use own_laws::session_statements_are_confined;
