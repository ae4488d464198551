//! The program over a world that is handed in.
#![tactic(auto)]

mod laws;
mod living;
mod top;
mod world;

pub use hq_command::{Done, INPUT_LIMIT, Refusal};
pub use laws::outputs_agree;
pub use top::{answer_one, run};
pub use world::{Observed, Ran, World};
