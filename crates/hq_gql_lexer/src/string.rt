//! Strings.
ghost use Rattle.std.specs.Prelude.{◌≡◌, ◌+◌, ◌<◌, ◌≤◌, ◌^◌, length, IfOk, IfSome, false};
ghost use Rattle.hq_base.specs.Due.{Gives};
ghost use Rattle.hq_gql_lexer.specs.Strings.{plain_len};
ghost use Rattle.hq_gql_lexer.specs.Lexemes.{plain_at, block_at, string_at};

use crate::block::{block_len, block_value, quotes_are_next};
use crate::byte::{is_line_end, text};
use crate::characters::{StringKind, characters};
use crate::{LexRefusal, TokenKind};
use std::alloc::Global;

// How many bytes stand before the closing quote, where there is one on this line. Each `\` takes the byte after it.
fn plain_len(bytes: &[u8]) -> Option<usize>
    ensures value { result ≡ plain_len false bytes.now }
    ensures within { IfSome result (λ n. n < length bytes.now) }
{
    let mut taken = false;
    for (i, b) in bytes.iter().enumerate() {
        if is_line_end(*b) {
            return None;
        }
        if !taken && *b == b'"' {
            return Some(i);
        }
        taken = !taken && *b == b'\\';
    }
    None
}

#[tactic(auto, unfolding(crate::specs::Lexemes::plain_at))]
fn plain_string(alloc: Global, at: usize, bytes: &[u8]) -> Result<(TokenKind, usize), LexRefusal>
    requires some { 0 < length bytes.now }
    requires fits { at + length bytes.now < 2 ^ 64 }
    ensures exact { Gives (λ x. x) LexRefusal.Memory (plain_at at bytes.now) result }
    ensures within { IfOk result (λ x. (0 < x.1) × (x.1 ≤ length bytes.now)) }
{
    let rest = &bytes[1..];
    let Some(len) = plain_len(rest) else {
        return Err(LexRefusal::OpenString { at: at as u64 });
    };
    let value = characters(alloc, StringKind::Plain, at + 1, &rest[..len])?;
    Ok((TokenKind::Str(text(alloc, &value)?), len + 2))
}

#[tactic(auto, unfolding(crate::specs::Lexemes::block_at))]
fn block_string(alloc: Global, at: usize, bytes: &[u8]) -> Result<(TokenKind, usize), LexRefusal>
    requires some { 3 ≤ length bytes.now }
    requires fits { at + length bytes.now < 2 ^ 64 }
    ensures exact { Gives (λ x. x) LexRefusal.Memory (block_at at bytes.now) result }
    ensures within { IfOk result (λ x. (0 < x.1) × (x.1 ≤ length bytes.now)) }
{
    let rest = &bytes[3..];
    let Some(len) = block_len(rest) else {
        return Err(LexRefusal::OpenString { at: at as u64 });
    };
    let raw = characters(alloc, StringKind::Block, at + 3, &rest[..len])?;
    let value = block_value(alloc, &raw)?;
    Ok((TokenKind::Str(text(alloc, &value)?), len + 6))
}

// The string at the front.
#[tactic(auto, unfolding(crate::specs::Lexemes::string_at))]
pub(crate) fn string(
    alloc: Global,
    at: usize,
    bytes: &[u8],
) -> Result<(TokenKind, usize), LexRefusal>
    requires some { 0 < length bytes.now }
    requires fits { at + length bytes.now < 2 ^ 64 }
    ensures exact { Gives (λ x. x) LexRefusal.Memory (string_at at bytes.now) result }
    ensures within { IfOk result (λ x. (0 < x.1) × (x.1 ≤ length bytes.now)) }
{
    if quotes_are_next(bytes) {
        block_string(alloc, at, bytes)
    } else {
        plain_string(alloc, at, bytes)
    }
}
