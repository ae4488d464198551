ghost use Rattle.std.specs.Prelude.{◌≡◌};
ghost use Rattle.hq_gql_parser.specs.Lookahead.{next_of, next, is_at, is_name, is_fragment_name};

use crate::keyword::{Keyword, keyword_of};
use hq_gql_lexer::{Punct, Token, TokenKind};

/// What stands next: all that the grammar looks at before it takes a token.
#[derive(Clone, Copy, PartialEq)]
pub(crate) enum Lookahead {
    End,
    Punct(Punct),
    Keyword(Keyword),
    Name,
    Int,
    Float,
    Str,
}

fn next_of(kind: &TokenKind) -> Lookahead
    ensures { result ≡ next_of kind.now }
{
    match kind {
        TokenKind::Punct(p) => Lookahead::Punct(*p),
        TokenKind::Name(name) => match keyword_of(name) {
            Some(keyword) => Lookahead::Keyword(keyword),
            None => Lookahead::Name,
        },
        TokenKind::Int(_) => Lookahead::Int,
        TokenKind::Float(_) => Lookahead::Float,
        TokenKind::Str(_) => Lookahead::Str,
    }
}

// What stands next in these tokens.
pub(crate) fn next(tokens: &[Token]) -> Lookahead
    ensures { result ≡ next tokens.now }
{
    match tokens {
        [token, ..] => next_of(&token.kind),
        [] => Lookahead::End,
    }
}

// Whether this stands next.
pub(crate) fn is_at(tokens: &[Token], expected: Lookahead) -> bool
    ensures { result ≡ is_at expected (next tokens.now) }
{
    next(tokens) == expected
}

// Whether a name stands next.
#[tactic(auto, unfolding(crate::specs::Lookahead::is_name))]
pub(crate) fn is_name(tokens: &[Token]) -> bool
    ensures { result ≡ is_name (next tokens.now) }
{
    match next(tokens) {
        Lookahead::Keyword(_) | Lookahead::Name => true,
        _ => false,
    }
}

// Whether a name that is not `on` stands next.
#[tactic(auto, unfolding(crate::specs::Lookahead::is_fragment_name))]
pub(crate) fn is_fragment_name(tokens: &[Token]) -> bool
    ensures { result ≡ is_fragment_name (next tokens.now) }
{
    is_name(tokens) && !is_at(tokens, Lookahead::Keyword(Keyword::On))
}
