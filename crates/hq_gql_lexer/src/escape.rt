//! Escapes in strings.
ghost use Rattle.std.specs.Prelude.{◌≡◌, ◌<◌, ◌^◌, ◌≤◌, length, IfSome, if◌then◌else◌, Some, None};
ghost use Rattle.std.specs.Char.{digit_value, is_digit};
ghost use Rattle.hq_gql_lexer.specs.Escapes.{simple_escape, unit_at, unicode_escape, escape_at};

use std::char;

fn simple_escape(byte: u8) -> Option<char>
    ensures { result ≡ simple_escape byte }
{
    match byte {
        b'"' => Some('"'),
        b'\\' => Some('\\'),
        b'/' => Some('/'),
        b'b' => Some('\u{8}'),
        b'f' => Some('\u{c}'),
        b'n' => Some('\n'),
        b'r' => Some('\r'),
        b't' => Some('\t'),
        _ => None,
    }
}

fn digit(byte: u8) -> Option<u32>
    ensures value { result ≡ (if is_digit byte 16 then Some (digit_value byte) else None) }
    ensures small { IfSome result (λ d. d < 16) }
{
    (byte as char).to_digit(16)
}

// The code unit of a `\u` and four hexadecimal digits at the front.
fn unit(bytes: &[u8]) -> Option<u32>
    ensures value { result ≡ unit_at bytes.now }
    ensures small { IfSome result (λ u. u < 2 ^ 16) }
    ensures within { IfSome result (λ _. 6 ≤ length bytes.now) }
{
    let [b'\\', b'u', a, b, c, d, ..] = bytes else {
        return None;
    };
    Some(((digit(*a)? * 16 + digit(*b)?) * 16 + digit(*c)?) * 16 + digit(*d)?)
}

#[tactic(auto, unfolding(crate::specs::Escapes::unicode_escape))]
fn unicode_escape(bytes: &[u8]) -> Option<(char, usize)>
    ensures value { result ≡ unicode_escape bytes.now }
    ensures within { IfSome result (λ x. (0 < x.1) × (x.1 ≤ length bytes.now)) }
{
    let high = unit(bytes)?;
    if high == 0 {
        return None;
    }
    if !(0xd800..0xdc00).contains(&high) {
        return Some((char::from_u32(high)?, 6));
    }
    let low = unit(&bytes[6..])?;
    if !(0xdc00..0xe000).contains(&low) {
        return None;
    }
    let code = 0x10000 + (high - 0xd800) * 0x400 + (low - 0xdc00);
    Some((char::from_u32(code)?, 12))
}

// The character of the escape at the front, which begins with a `\`, and how many bytes the escape takes.
#[tactic(auto, unfolding(crate::specs::Escapes::escape_at))]
pub(crate) fn escape(bytes: &[u8]) -> Option<(char, usize)>
    ensures value { result ≡ escape_at bytes.now }
    ensures within { IfSome result (λ x. (0 < x.1) × (x.1 ≤ length bytes.now)) }
{
    let [_, second, ..] = bytes else {
        return None;
    };
    match simple_escape(*second) {
        Some(c) => Some((c, 2)),
        None => unicode_escape(bytes),
    }
}
