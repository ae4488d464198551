//! The database that `hq gen N` answers requests over, N authors and 4 N articles, and these requests.
#![tactic(auto)]

mod articles;
mod asked;
mod authors;
mod catalog;
mod generated;
mod lines;
mod metadata;
mod text;

pub use asked::{caller, requests};
pub use generated::{Generated, generate};
pub use lines::{put_reply_line, put_steps_line};
