//! JSON as text, member by member: what a database answers with, of which no tree is built.
#![tactic(auto)]

mod answer;

pub use answer::{Answer, AnswerMember};
