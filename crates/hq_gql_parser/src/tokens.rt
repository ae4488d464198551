//! Taking one token.
ghost use Rattle.std.specs.Prelude.{◌≡◌};
ghost use Rattle.hq_base.specs.Due.{Gives};
ghost use Rattle.hq_gql_parser.specs.Parsing.{punct_at, name_at, keyword_at, fragment_name_at, too_deep_or_unexpected};

use crate::keyword::{Keyword, is_keyword};
use crate::lookahead::{Lookahead, is_at};
use crate::stop::Stop;
use hq_base::Txt;
use hq_gql_lexer::{Punct, Token, TokenKind};
use std::alloc::Global;

// This punctuator's place, and the tokens behind it.
#[tactic(auto, unfolding(crate::specs::Parsing::punct_at))]
pub(crate) fn punct(punct: Punct, tokens: &[Token]) -> Result<(u64, &[Token]), Stop>
    ensures { Gives (λ x. (x.0, x.1.now)) Stop.Memory (punct_at punct tokens.now) result }
{
    match tokens {
        [token, rest @ ..] if is_at(tokens, Lookahead::Punct(punct)) => Ok((token.from, rest)),
        _ => Err(Stop::Unexpected(tokens.len())),
    }
}

// This keyword's place, and the tokens behind it.
#[tactic(auto, unfolding(crate::specs::Parsing::keyword_at))]
pub(crate) fn keyword(keyword: Keyword, tokens: &[Token]) -> Result<(u64, &[Token]), Stop>
    ensures { Gives (λ x. (x.0, x.1.now)) Stop.Memory (keyword_at keyword tokens.now) result }
{
    match tokens {
        [
            Token {
                from,
                kind: TokenKind::Name(name),
                ..
            },
            rest @ ..,
        ] if is_keyword(name, keyword) => Ok((*from, rest)),
        _ => Err(Stop::Unexpected(tokens.len())),
    }
}

// A name, its place, and the tokens behind it.
#[tactic(auto, unfolding(crate::specs::Parsing::name_at))]
pub(crate) fn name(alloc: Global, tokens: &[Token]) -> Result<(u64, Txt, &[Token]), Stop>
    ensures { Gives (λ x. ((x.0, x.1), x.2.now)) Stop.Memory (name_at tokens.now) result }
{
    match tokens {
        [
            Token {
                from,
                kind: TokenKind::Name(name),
                ..
            },
            rest @ ..,
        ] => Ok((*from, name.copy(alloc)?, rest)),
        _ => Err(Stop::Unexpected(tokens.len())),
    }
}

// A name that is not `on`, and the tokens behind it.
#[tactic(auto, unfolding(crate::specs::Parsing::fragment_name_at))]
pub(crate) fn fragment_name(alloc: Global, tokens: &[Token]) -> Result<(Txt, &[Token]), Stop>
    ensures { Gives (λ x. (x.0, x.1.now)) Stop.Memory (fragment_name_at tokens.now) result }
{
    match tokens {
        [
            Token {
                kind: TokenKind::Name(name),
                ..
            },
            rest @ ..,
        ] if !is_keyword(name, Keyword::On) => Ok((name.copy(alloc)?, rest)),
        _ => Err(Stop::Unexpected(tokens.len())),
    }
}

// Where a bracket stops that is one too many.
#[tactic(auto, unfolding(crate::specs::Parsing::too_deep_or_unexpected))]
pub(crate) fn too_deep_or_unexpected(bracket: Punct, tokens: &[Token]) -> Stop
    ensures { result ≡ too_deep_or_unexpected bracket tokens.now }
{
    if is_at(tokens, Lookahead::Punct(bracket)) {
        return Stop::TooDeep(tokens.len());
    }
    Stop::Unexpected(tokens.len())
}
