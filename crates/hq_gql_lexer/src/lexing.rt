//! A text from left to right.
ghost use Rattle.std.specs.Prelude.{◌≡◌, ◌↔◌, ℕ, ◌+◌, ◌<◌, ◌^◌, ◌++◌, List, length, Ok, IfOk, OnOk};
ghost use Rattle.hq_base.specs.Due.{Gives};
ghost use Rattle.hq_gql_lexer.specs.Grammar.{Lexes};
ghost use Rattle.hq_gql_lexer.specs.Lexemes.{tokens_in, tokens_of};
ghost use Rattle.hq_gql_lexer.specs.Spans.{AreInOrder};
ghost use Rattle.hq_gql_lexer.specs.declared.token.Token.{Token};

use crate::lexeme::lexeme;
use crate::{LexRefusal, Token, TokenKind, Tokens};
use hq_base::{List, Memory};
use std::alloc::Global;

// Adds the token of a lexeme, if it is one.
fn push_token(
    tokens: &mut Tokens,
    at: usize,
    kind: Option<TokenKind>,
    len: usize,
) -> Result<(), Memory>
    requires { at + len < 2 ^ 64 }
    ensures { OnOk result (tokens.new ≡ tokens.old ++ tokens_in at kind len) }
{
    match kind {
        Some(kind) => tokens.push(Token {
            from: at as u64,
            to: (at + len) as u64,
            kind,
        }),
        None => Ok(()),
    }
}

// The tokens that the definition has.
#[tactic(auto, unfolding(crate::specs::Lexemes::tokens_of))]
fn all_tokens(alloc: Global, text: &[u8]) -> Result<Tokens, LexRefusal>
    ensures { Gives (λ tokens. tokens) LexRefusal.Memory (tokens_of text.now) result }
{
    let mut tokens = List::new(alloc);
    let mut at = 0;
    while at < text.len() {
        let (kind, len) = lexeme(alloc, at, &text[at..])?;
        push_token(&mut tokens, at, kind, len)?;
        at += len;
    }
    Ok(tokens)
}

/// The tokens of a text. What stands between them is ignored: white space, line ends, commas, byte order marks and
/// comments. A refusal stands at the first place from the left at which there is one, and there it is the first of
/// [`LexRefusal`]'s.
pub fn lex(alloc: Global, text: &[u8]) -> Result<Tokens, LexRefusal>
    ensures exact { Gives (λ tokens. tokens) LexRefusal.Memory (tokens_of text.now) result }
    ensures spans { IfOk result (λ tokens. AreInOrder 0 (length text.now) tokens) }
{
    all_tokens(alloc, text)
}

/// The tokens of a text are exactly those that the standard's productions have, with what is ignored between them.
pub fn tokens_are_of_the_grammar()
    ensures { (text : List ℕ) (tokens : List Token) → (tokens_of text ≡ Ok tokens) ↔ Lexes 0 text tokens }
{}
