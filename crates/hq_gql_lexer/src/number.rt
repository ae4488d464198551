//! The parts of numbers.
ghost use Rattle.std.specs.Prelude.{◌≡◌, ◌+◌, ◌<◌, ◌≤◌, ◌^◌, length, IfOk, IsTrue};
ghost use Rattle.hq_base.specs.Due.{Gives};
ghost use Rattle.hq_gql_lexer.specs.Characters.{next_is};
ghost use Rattle.hq_gql_lexer.specs.Numbers.{minus_len, natural_len, integer_len, fraction_len, sign_len, signed_digits_len, exponent_len, number_len};
ghost use Rattle.hq_gql_lexer.specs.Lexemes.{cannot_follow_number, starts_number, number_at};

use crate::byte::{digit_is_next, digits_len, is_name_start, text};
use crate::{LexRefusal, TokenKind};
use std::alloc::Global;

fn minus_len(bytes: &[u8]) -> usize
    ensures len { result ≡ minus_len bytes.now }
    ensures within { result ≤ length bytes.now }
{
    match bytes {
        [b'-', ..] => 1,
        _ => 0,
    }
}

fn natural_len(bytes: &[u8]) -> usize
    ensures len { result ≡ natural_len bytes.now }
    ensures within { result ≤ length bytes.now }
{
    match bytes {
        [b'0', ..] => 1,
        _ => digits_len(bytes),
    }
}

fn integer_len(bytes: &[u8]) -> usize
    ensures len { result ≡ integer_len bytes.now }
    ensures within { result ≤ length bytes.now }
{
    let minus = minus_len(bytes);
    minus + natural_len(&bytes[minus..])
}

fn fraction_len(bytes: &[u8]) -> usize
    ensures len { result ≡ fraction_len bytes.now }
    ensures within { result ≤ length bytes.now }
{
    match bytes {
        [b'.', rest @ ..] if digit_is_next(rest) => 1 + digits_len(rest),
        _ => 0,
    }
}

fn sign_len(bytes: &[u8]) -> usize
    ensures len { result ≡ sign_len bytes.now }
    ensures within { result ≤ length bytes.now }
{
    match bytes {
        [b'+' | b'-', ..] => 1,
        _ => 0,
    }
}

fn signed_digits_len(bytes: &[u8]) -> usize
    ensures len { result ≡ signed_digits_len bytes.now }
    ensures within { result ≤ length bytes.now }
{
    let sign = sign_len(bytes);
    if digit_is_next(&bytes[sign..]) {
        sign + digits_len(&bytes[sign..])
    } else {
        0
    }
}

fn exponent_len(bytes: &[u8]) -> usize
    ensures len { result ≡ exponent_len bytes.now }
    ensures within { result ≤ length bytes.now }
{
    match bytes {
        [b'e' | b'E', rest @ ..] => match signed_digits_len(rest) {
            0 => 0,
            digits => 1 + digits,
        },
        _ => 0,
    }
}

fn number_len(bytes: &[u8]) -> usize
    ensures len { result ≡ number_len bytes.now }
    ensures within { result ≤ length bytes.now }
{
    let whole = integer_len(bytes);
    let part = whole + fraction_len(&bytes[whole..]);
    part + exponent_len(&bytes[part..])
}

// Whether what follows a number goes on as no number may.
fn cannot_follow_number(bytes: &[u8]) -> bool
    ensures { result ≡ next_is cannot_follow_number bytes.now }
{
    match bytes {
        [b, ..] => b.is_ascii_digit() || *b == b'.' || is_name_start(*b),
        [] => false,
    }
}

// Whether a number starts here: a digit, or a `-` before one.
pub(crate) fn number_starts(bytes: &[u8]) -> bool
    ensures { result ≡ starts_number bytes.now }
{
    match bytes {
        [b'-', rest @ ..] => digit_is_next(rest),
        _ => digit_is_next(bytes),
    }
}

// The number at the front.
#[tactic(auto, unfolding(crate::specs::Lexemes::number_at))]
pub(crate) fn number(
    alloc: Global,
    at: usize,
    bytes: &[u8],
) -> Result<(TokenKind, usize), LexRefusal>
    requires starts { IsTrue (starts_number bytes.now) }
    requires fits { at + length bytes.now < 2 ^ 64 }
    ensures exact { Gives (λ x. x) LexRefusal.Memory (number_at at bytes.now) result }
    ensures within { IfOk result (λ x. (0 < x.1) × (x.1 ≤ length bytes.now)) }
{
    let len = number_len(bytes);
    if cannot_follow_number(&bytes[len..]) {
        return Err(LexRefusal::BadNumber { at: at as u64 });
    }
    let text = text(alloc, &bytes[..len])?;
    if len == integer_len(bytes) {
        Ok((TokenKind::Int(text), len))
    } else {
        Ok((TokenKind::Float(text), len))
    }
}
