//! The program's asker: the engine answers over the rows of a directory, whose table files are read again at each reload.
#![tactic(auto)]

mod asker;

pub use asker::EngineAsker;
