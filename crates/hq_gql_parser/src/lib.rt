//! The grammar of a GraphQL document without type system definitions (GraphQL October 2021, section 2), both ways: the
//! tree that tokens spell, or the first token with which no document begins.
#![tactic(auto)]

mod definitions;
mod directives;
mod keyword;
mod lookahead;
mod parsing;
mod refusal;
mod selections;
mod stop;
mod tokens;
mod types;
mod values;
mod variables;

pub use parsing::{one_answer, one_document, parse, parsed_is_due};
pub use refusal::ParseRefusal;
