//! A request's body to its reply.
#![tactic(auto)]

mod engine;
mod laws;
mod refusal;
mod schemas;
mod stated;
mod statement;

pub use engine::Engine;
pub use laws::replies_agree;
pub use refusal::EngineRefusal;
pub use schemas::FoundSchema;
pub use stated::Stated;
