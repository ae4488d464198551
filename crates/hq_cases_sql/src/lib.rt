//! Cases about SQL: texts, which of them are well-formed, and what the evaluator does with cells.
#![tactic(auto)]

mod cells;
mod rows;
mod subject;
mod texts;

pub use subject::About;
