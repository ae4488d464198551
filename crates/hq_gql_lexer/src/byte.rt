//! Classes of bytes, and how far they go.
ghost use Rattle.std.specs.Prelude.{◌≡◌, ◌≤◌, length, Ok, IfOk};
ghost use Rattle.hq_base.specs.Refused.{text_of};
ghost use Rattle.std.specs.List.{prefix_len};
ghost use Rattle.std.specs.Char.{is_ascii_digit};
ghost use Rattle.std.specs.Str.Lossy.{utf8_valid_len};
ghost use Rattle.hq_gql_lexer.specs.Characters.{is_line_end, is_white_space, is_name_start, is_name_continue, is_source, next_is};

use hq_base::{Memory, Txt};
use std::alloc::Global;
use std::str;

pub(crate) fn is_line_end(byte: u8) -> bool
    ensures { result ≡ is_line_end byte }
{
    byte == b'\n' || byte == b'\r'
}

pub(crate) fn is_white_space(byte: u8) -> bool
    ensures { result ≡ is_white_space byte }
{
    byte == b'\t' || byte == b' '
}

pub(crate) fn is_source(byte: u8) -> bool
    ensures { result ≡ is_source byte }
{
    byte == b'\t' || is_line_end(byte) || byte >= b' '
}

pub(crate) fn is_name_start(byte: u8) -> bool
    ensures { result ≡ is_name_start byte }
{
    byte.is_ascii_alphabetic() || byte == b'_'
}

pub(crate) fn is_name_continue(byte: u8) -> bool
    ensures { result ≡ is_name_continue byte }
{
    is_name_start(byte) || byte.is_ascii_digit()
}

// How many bytes at the front go on a name.
pub(crate) fn name_len(bytes: &[u8]) -> usize
    ensures len { result ≡ prefix_len is_name_continue bytes.now }
    ensures within { result ≤ length bytes.now }
{
    bytes.iter().take_while(|b| is_name_continue(**b)).count()
}

// How many digits stand at the front.
pub(crate) fn digits_len(bytes: &[u8]) -> usize
    ensures len { result ≡ prefix_len is_ascii_digit bytes.now }
    ensures within { result ≤ length bytes.now }
{
    bytes.iter().take_while(|b| b.is_ascii_digit()).count()
}

// How many bytes at the front are of characters that a text may hold.
pub(crate) fn source_len(bytes: &[u8]) -> usize
    ensures len { result ≡ prefix_len is_source bytes.now }
    ensures within { result ≤ length bytes.now }
{
    bytes.iter().take_while(|b| is_source(**b)).count()
}

// How many bytes at the front are UTF-8.
pub(crate) fn utf8_len(bytes: &[u8]) -> usize
    ensures len { result ≡ utf8_valid_len bytes.now }
    ensures within { result ≤ length bytes.now }
{
    match str::from_utf8(bytes) {
        Ok(_) => bytes.len(),
        Err(e) => e.valid_up_to(),
    }
}

// Whether a digit is next.
pub(crate) fn digit_is_next(bytes: &[u8]) -> bool
    ensures { result ≡ next_is is_ascii_digit bytes.now }
{
    bytes.first().is_some_and(|b| b.is_ascii_digit())
}

// The text of these bytes, which are one.
pub(crate) fn text(alloc: Global, bytes: &[u8]) -> Result<Txt, Memory>
    requires { text_of bytes.now ≡ Ok bytes.now }
    ensures { IfOk result (λ text. text ≡ bytes.now) }
{
    match Txt::of(alloc, bytes) {
        Ok(text) => Ok(text),
        Err(_) => Err(Memory),
    }
}
