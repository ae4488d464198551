//! The text of a uuid: its one form, and what is read as one.
ghost use Rattle.std.specs.Prelude.{◌≡◌, ◌++◌, ◌<◌, [], true, length, OnOk, IfOk};
ghost use Rattle.std.specs.Char.{is_ascii_hexdigit};
ghost use Rattle.std.specs.List.{list_all, enumerate_from};
ghost use Rattle.hq_base.specs.Uuids.{are_groups, form_from, is_braced, is_digit_or_hyphen, is_hyphen_place, is_placed, is_small_hex, is_uuid_form, next_place, spells_from, spells_uuid, uuid_form, with_digit, within_braces};

use crate::{Memory, Txt};
use std::alloc::Global;

// A digit of hexadecimal that is no capital.
fn is_small_hex(c: u8) -> bool
    ensures { result ≡ is_small_hex c }
{
    c.is_ascii_digit() || (b'a' <= c && c <= b'f')
}

// Whether a hyphen stands at this place of the form.
fn is_hyphen_place(at: usize) -> bool
    ensures { result ≡ is_hyphen_place at }
{
    at == 8 || at == 13 || at == 18 || at == 23
}

// A byte is the one that may stand at this place of the form.
fn is_placed(at: usize, c: u8) -> bool
    ensures { result ≡ is_placed at c }
{
    if is_hyphen_place(at) {
        c == b'-'
    } else {
        is_small_hex(c)
    }
}

// All bytes are ones that may stand at their places.
fn are_placed(bytes: &[u8]) -> bool
    ensures { result ≡ list_all (λ p. is_placed p.0 p.1) (enumerate_from 0 bytes.now) }
{
    bytes.iter().enumerate().all(|(at, c)| is_placed(at, *c))
}

/// Whether a text is in the one form of a uuid: 32 digits of hexadecimal in small letters, in groups of 8, 4, 4, 4 and 12 with a hyphen
/// between two.
pub fn is_uuid_form(text: &str) -> bool
    ensures { result ≡ is_uuid_form text.now }
{
    let bytes = text.as_bytes();
    bytes.len() == 36 && are_placed(bytes)
}

// Whether the text has a brace at both ends.
fn is_braced(text: &[u8]) -> bool
    ensures { result ≡ is_braced text.now }
{
    text.len() >= 2 && text[0] == b'{' && text[text.len() - 1] == b'}'
}

// What stands between its braces, or the text itself.
fn within_braces(text: &[u8]) -> &[u8]
    ensures { result.now ≡ within_braces text.now }
{
    if is_braced(text) {
        &text[1..text.len() - 1]
    } else {
        text
    }
}

// So many digits are one group of four, or several.
fn are_groups(digits: usize) -> bool
    ensures { result ≡ are_groups digits }
{
    digits > 0 && digits % 4 == 0
}

// The place in the form behind the digit that stands there next.
fn next_place(at: usize) -> usize
    requires { at < 36 }
    ensures { result ≡ next_place at }
{
    if is_hyphen_place(at) { at + 2 } else { at + 1 }
}

// Whether the bytes go on as the text of a uuid does, from its beginning.
fn spells(bytes: &[u8]) -> bool
    ensures { result ≡ spells_from 0 0 bytes.now }
{
    let mut at: usize = 0;
    let mut since: usize = 0;
    for c in bytes {
        if *c == b'-' {
            if !are_groups(since) {
                return false;
            }
            since = 0;
        } else {
            if at >= 36 || !c.is_ascii_hexdigit() {
                return false;
            }
            at = next_place(at);
            since += 1;
        }
    }
    at == 36 && are_groups(since)
}

/// Whether a text is read as a uuid, as PostgreSQL reads one: 32 digits of hexadecimal in either case, in braces or not, and a hyphen or
/// none between two groups of four.
pub fn spells_uuid(text: &str) -> bool
    ensures { result ≡ spells_uuid text.now }
{
    spells(within_braces(text.as_bytes()))
}

// Adds a digit at its place in the form, small, and the hyphen that comes before it.
fn push_digit(form: &mut Txt, c: u8) -> Result<(), Memory>
    requires { is_ascii_hexdigit c ≡ true }
    ensures { OnOk result (form.new ≡ form.old ++ with_digit (length form.old) c []) }
{
    if is_hyphen_place(form.as_bytes().len()) {
        form.push_ascii(b'-')?;
    }
    form.push_ascii(c.to_ascii_lowercase())
}

// The form of these digits; hyphens among them are passed over.
fn form_of(alloc: Global, bytes: &[u8]) -> Result<Txt, Memory>
    requires { list_all is_digit_or_hyphen bytes.now ≡ true }
    ensures { IfOk result (λ form. form ≡ form_from 0 bytes.now) }
{
    let mut form = Txt::new(alloc);
    for c in bytes {
        if *c != b'-' {
            push_digit(&mut form, *c)?;
        }
    }
    Ok(form)
}

/// The one form of the uuid that a text is read as; None where it is read as none.
pub fn uuid_form(alloc: Global, text: &str) -> Result<Option<Txt>, Memory>
    ensures { IfOk result (λ form. form ≡ uuid_form text.now) }
{
    let bytes = within_braces(text.as_bytes());
    if !spells(bytes) {
        return Ok(None);
    }
    Ok(Some(form_of(alloc, bytes)?))
}
