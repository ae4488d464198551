//! The whole document.
ghost use Rattle.std.specs.Prelude.{◌≡◌, ℕ, ◌-◌, ◌≤◌, List, length, drop, Result};
ghost use Rattle.hq_base.specs.Due.{Gives};
ghost use Rattle.hq_gql_lexer.specs.declared.token.Token.{Token};
ghost use Rattle.hq_gql_tree.specs.Documents.{DocumentTree};
ghost use Rattle.hq_gql_tree.specs.View.{document_view};
ghost use Rattle.hq_gql_parser.specs.declared.refusal.ParseRefusal.{ParseRefusal};
ghost use Rattle.hq_gql_parser.specs.Operations.{IsDocument};
ghost use Rattle.hq_gql_parser.specs.Answered.{parsed};
ghost use Rattle.hq_gql_parser.specs.Documents.{place, Parses};

use crate::ParseRefusal;
use crate::definitions::definitions;
use crate::stop::Stop;
use hq_gql_lexer::{Token, Tokens};
use hq_gql_tree::Document;
use std::alloc::Global;

// The place of the token that has so many from itself on; the text's end where there are none.
fn place(tokens: &[Token], end: u64, left: usize) -> u64
    requires { left ≤ length tokens.now }
    ensures { result ≡ place end (drop (length tokens.now - left) tokens.now) }
{
    let (_front, rest) = tokens.split_at(tokens.len() - left);
    match rest {
        [token, ..] => token.from,
        [] => end,
    }
}

/// The document that the tokens of a text spell (GraphQL October 2021, section 2). `end` is the text's length in bytes.
///
/// Refused are: no token (`Empty`); the first token with which no document begins, or `end` where the tokens end too
/// early (`Unexpected`); and the first `{` or `[` at which more than 50 of them are open at once, where no token up to
/// it is unexpected (`TooDeep`).
pub fn parse(alloc: Global, tokens: &Tokens, end: u64) -> Result<Document, ParseRefusal>
    ensures { Gives document_view ParseRefusal.Memory (parsed end tokens.now) result }
{
    let tokens = tokens.as_slice();
    if tokens.is_empty() {
        return Err(ParseRefusal::Empty);
    }
    match definitions(alloc, 50, tokens) {
        Ok((definitions, _rest)) => Ok(Document { definitions }),
        Err(Stop::Unexpected(left)) => Err(ParseRefusal::Unexpected {
            at: place(tokens, end, left),
        }),
        Err(Stop::TooDeep(left)) => Err(ParseRefusal::TooDeep {
            at: place(tokens, end, left),
        }),
        Err(Stop::Memory) => Err(ParseRefusal::Memory),
    }
}

/// Tokens spell at most one document.
pub fn one_document()
    ensures { (ts : List Token) (a b : DocumentTree) → IsDocument a ts → IsDocument b ts → a ≡ b }
{}

/// At nesting_limit one answer is due.
pub fn one_answer()
    ensures { (end : ℕ) (ts : List Token) (a b : Result DocumentTree ParseRefusal) → Parses end ts a → Parses end ts b → a ≡ b }
{}

/// The answer that is computed is due, whatever the tokens. So `parse` gives the document that the tokens spell, and a
/// refusal only where the grammar has it.
pub fn parsed_is_due()
    ensures { (end : ℕ) (ts : List Token) → Parses end ts (parsed end ts) }
{}
