//! Block strings.
ghost use Rattle.std.specs.Prelude.{◌≡◌, ◌+◌, ◌<◌, ◌≤◌, length, nat_eq, IsTrue, IfOk, IfSome};
ghost use Rattle.std.specs.List.{starts_with};
ghost use Rattle.hq_gql_lexer.specs.Strings.{quotes, block_step, block_len};
ghost use Rattle.hq_gql_lexer.specs.BlockStrings.{block_value};

use crate::lines::{dedented, joined, lines, without_blank_back, without_blank_front};
use hq_base::Memory;
use std::alloc::Global;

// Whether `"""` is next.
pub(crate) fn quotes_are_next(bytes: &[u8]) -> bool
    ensures value { result ≡ starts_with nat_eq bytes.now quotes }
    ensures within { IsTrue result → 3 ≤ length bytes.now }
{
    match bytes {
        [b'"', b'"', b'"', ..] => true,
        _ => false,
    }
}

// How many bytes a `\"""` takes, or else a byte.
pub(crate) fn block_step(bytes: &[u8]) -> usize
    ensures value { result ≡ block_step bytes.now }
    ensures some { 0 < result }
    ensures within { 0 < length bytes.now → result ≤ length bytes.now }
{
    match bytes {
        [b'\\', b'"', b'"', b'"', ..] => 4,
        _ => 1,
    }
}

// How many bytes stand before the closing `"""`. Those of a `\"""` close nothing.
pub(crate) fn block_len(bytes: &[u8]) -> Option<usize>
    ensures value { result ≡ block_len 0 bytes.now }
    ensures within { IfSome result (λ n. n + 3 ≤ length bytes.now) }
{
    let mut at = 0;
    while at < bytes.len() {
        if quotes_are_next(&bytes[at..]) {
            return Some(at);
        }
        at += block_step(&bytes[at..]);
    }
    None
}

// The value of a block string: its lines without their common indentation and without blank ones at the ends.
#[tactic(auto, unfolding(crate::specs::BlockStrings::block_value))]
pub(crate) fn block_value(alloc: Global, raw: &[u8]) -> Result<Vec<u8>, Memory>
    ensures { IfOk result (λ value. value.items ≡ block_value raw.now) }
{
    let lines = lines(alloc, raw)?;
    let lines = dedented(alloc, &lines)?;
    joined(alloc, without_blank_back(without_blank_front(&lines)))
}
