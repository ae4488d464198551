//! The law of live queries over databases that a session cannot tell apart.
#![tactic(auto)]

mod worlds;

pub use worlds::agreeing_databases_send_the_same;
