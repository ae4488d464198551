//! What a request gives is decided by the view of its session: by the shown cells of the permitted rows and columns, and by
//! which positions are linked.
#![tactic(auto)]

mod laws;

pub use laws::{resolves_alike, worlds_agree};
