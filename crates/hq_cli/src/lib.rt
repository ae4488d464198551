//! The words behind the program's name, as the crate `clap` takes them.
//!
//! The first word is the command, byte for byte. The words behind it are in its grammar exactly where the simple command
//! of `clap` with these arguments takes them, each header has its form, at most 64 are given, no secret and no role is empty,
//! and a generated database has from 1 to 100,000 authors. A word that asks what the program says of itself stands alone.
#![tactic(auto)]

mod arguments;
mod command;
mod living;
mod page;
mod parse;
mod refusal;
mod values;

pub use command::Command;
pub use page::Page;
pub use refusal::WordsRefusal;
