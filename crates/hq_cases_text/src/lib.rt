//! Cases about texts, values, headers, tokens and documents.
#![tactic(auto)]

mod documents;
mod headers;
mod printer;
mod subject;
mod texts;
mod words;

pub use subject::About;
