//! Laws of typed requests: what is built of a checked document, and so what a body makes, is a typed request of its session.
mod built;
mod laws;

pub use built::requests_are_built;
pub use laws::requests_are_formed;
