//! What stands at one place of a text: a token, or what is ignored.
ghost use Rattle.std.specs.Prelude.{◌≡◌, ◌+◌, ◌<◌, ◌≤◌, ◌^◌, length, IsTrue, IfOk, IfSome};
ghost use Rattle.hq_base.specs.Due.{Gives};
ghost use Rattle.hq_gql_lexer.specs.Characters.{next_is, is_name_start};
ghost use Rattle.hq_gql_lexer.specs.Lexemes.{comment_at, ignored_at, punct_of, punct_at, name_at, token_at, lexeme_at};

use crate::byte::{
    is_line_end, is_name_start, is_white_space, name_len, source_len, text, utf8_len,
};
use crate::lines::line_len;
use crate::number::{number, number_starts};
use crate::string::string;
use crate::{LexRefusal, Punct, TokenKind};
use std::alloc::Global;

// How many bytes a comment takes behind its `#`.
#[tactic(auto, unfolding(crate::specs::Lexemes::comment_at))]
fn comment(at: usize, bytes: &[u8]) -> Result<usize, LexRefusal>
    requires { at + length bytes.now < 2 ^ 64 }
    ensures exact { Gives (λ n. n) LexRefusal.Memory (comment_at at bytes.now) result }
    ensures within { IfOk result (λ n. n ≤ length bytes.now) }
{
    let len = line_len(bytes);
    let valid = utf8_len(&bytes[..len]);
    let good = source_len(&bytes[..valid]);
    if good < valid {
        return Err(LexRefusal::BadByte {
            at: (at + good) as u64,
        });
    }
    if valid < len {
        return Err(LexRefusal::NotUtf8 {
            at: (at + valid) as u64,
        });
    }
    Ok(len)
}

// How many ignored bytes stand at the front, where there are any.
#[tactic(auto, unfolding(crate::specs::Lexemes::ignored_at))]
fn ignored(at: usize, bytes: &[u8]) -> Result<Option<usize>, LexRefusal>
    requires { at + length bytes.now < 2 ^ 64 }
    ensures exact { Gives (λ n. n) LexRefusal.Memory (ignored_at at bytes.now) result }
    ensures within { IfOk result (λ found. IfSome found (λ n. (0 < n) × (n ≤ length bytes.now))) }
{
    match bytes {
        [b'#', rest @ ..] => Ok(Some(comment(at + 1, rest)? + 1)),
        [0xef, 0xbb, 0xbf, ..] => Ok(Some(3)),
        [b, ..] if is_white_space(*b) || is_line_end(*b) || *b == b',' => Ok(Some(1)),
        _ => Ok(None),
    }
}

#[tactic(auto, unfolding(crate::specs::Lexemes::punct_of))]
fn punct_of(byte: u8) -> Option<Punct>
    ensures { result ≡ punct_of byte }
{
    match byte {
        b'!' => Some(Punct::Bang),
        b'$' => Some(Punct::Dollar),
        b'&' => Some(Punct::Ampersand),
        b'(' => Some(Punct::OpenParenthesis),
        b')' => Some(Punct::CloseParenthesis),
        b':' => Some(Punct::Colon),
        b'=' => Some(Punct::Equals),
        b'@' => Some(Punct::At),
        b'[' => Some(Punct::OpenBracket),
        b']' => Some(Punct::CloseBracket),
        b'{' => Some(Punct::OpenBrace),
        b'|' => Some(Punct::Pipe),
        b'}' => Some(Punct::CloseBrace),
        _ => None,
    }
}

#[tactic(auto, unfolding(crate::specs::Lexemes::punct_at))]
fn punct(bytes: &[u8]) -> Option<(Punct, usize)>
    ensures exact { result ≡ punct_at bytes.now }
    ensures within { IfSome result (λ x. (0 < x.1) × (x.1 ≤ length bytes.now)) }
{
    match bytes {
        [b'.', b'.', b'.', ..] => Some((Punct::Spread, 3)),
        [b, ..] => Some((punct_of(*b)?, 1)),
        [] => None,
    }
}

#[tactic(auto, unfolding(crate::specs::Lexemes::name_at))]
fn name(alloc: Global, bytes: &[u8]) -> Result<(TokenKind, usize), LexRefusal>
    requires { IsTrue (next_is is_name_start bytes.now) }
    ensures exact { Gives (λ x. x) LexRefusal.Memory (name_at bytes.now) result }
    ensures within { IfOk result (λ x. (0 < x.1) × (x.1 ≤ length bytes.now)) }
{
    let len = name_len(bytes);
    Ok((TokenKind::Name(text(alloc, &bytes[..len])?), len))
}

#[tactic(auto, unfolding(crate::specs::Lexemes::token_at))]
fn token(alloc: Global, at: usize, bytes: &[u8]) -> Result<(TokenKind, usize), LexRefusal>
    requires fits { at + length bytes.now < 2 ^ 64 }
    ensures exact { Gives (λ x. x) LexRefusal.Memory (token_at at bytes.now) result }
    ensures within { IfOk result (λ x. (0 < x.1) × (x.1 ≤ length bytes.now)) }
{
    if let Some((punct, len)) = punct(bytes) {
        return Ok((TokenKind::Punct(punct), len));
    }
    if number_starts(bytes) {
        return number(alloc, at, bytes);
    }
    match bytes {
        [b'"', ..] => string(alloc, at, bytes),
        [b, ..] if is_name_start(*b) => { name(alloc, bytes) }
        _ => Err(LexRefusal::BadByte { at: at as u64 }),
    }
}

// The token at the front, None where what stands there is ignored, and how many bytes it takes.
#[tactic(auto, unfolding(crate::specs::Lexemes::lexeme_at))]
pub(crate) fn lexeme(
    alloc: Global,
    at: usize,
    bytes: &[u8],
) -> Result<(Option<TokenKind>, usize), LexRefusal>
    requires fits { at + length bytes.now < 2 ^ 64 }
    ensures exact { Gives (λ x. x) LexRefusal.Memory (lexeme_at at bytes.now) result }
    ensures within { IfOk result (λ x. (0 < x.1) × (x.1 ≤ length bytes.now)) }
{
    if let Some(len) = ignored(at, bytes)? {
        return Ok((None, len));
    }
    let (kind, len) = token(alloc, at, bytes)?;
    Ok((Some(kind), len))
}
