//! The tokens of a GraphQL text (GraphQL October 2021, section 2.1), exact to the byte.
#![tactic(auto)]

mod block;
mod byte;
mod characters;
mod escape;
mod lexeme;
mod lexing;
mod lines;
mod number;
mod refusal;
mod string;
mod token;

pub use lexing::{lex, tokens_are_of_the_grammar};
pub use refusal::LexRefusal;
pub use token::{Punct, Token, TokenKind, Tokens};
