//! Records and fields of a table file, as the crate `csv` takes them apart.
ghost use Rattle.std.specs.Prelude.{◌≡◌, ◌≤◌, ◌+◌, length, if◌then◌else◌, option_map};
ghost use Rattle.csv.specs.declared.parser.State.TheVariants as st;
ghost use Rattle.hq_explain_places.specs.Records.{begins_field, behind_byte, behind_field, behind_record, break_length, comma_count, field_of, field_rest, from_field, from_first, from_next, from_record, open_field, open_quote, part, record_of, record_rest, state_of};

use crate::stand::{Stand, without_mark};

/// A record of a table file, or a field of one: where it begins in the file, and its text as it stands there.
#[derive(Clone, Copy)]
pub struct Piece<'a> {
    pub start: usize,
    pub text: &'a [u8],
}

/// What of a text stands before the rest of it.
pub(crate) fn part<'a>(text: &'a [u8], rest: &[u8]) -> &'a [u8]
    ensures { result.now ≡ part text.now rest.now }
{
    &text[..text.len().saturating_sub(rest.len())]
}

// A text from the end of the record on that begins it.
fn behind_record(text: &[u8]) -> &[u8]
    ensures { result.now ≡ behind_record st.StartField text.now }
{
    let mut stand = Stand::StartField;
    let mut rest = text;
    'bytes: while let [byte, later @ ..] = rest {
        if stand.ends_record(*byte) {
            return rest;
        }
        stand = stand.after(*byte);
        rest = later;
    }
    rest
}

// A record from the end of its first field on.
fn behind_field(text: &[u8]) -> &[u8]
    ensures { result.now ≡ behind_field st.StartField text.now }
{
    let mut stand = Stand::StartField;
    let mut rest = text;
    'bytes: while let [byte, later @ ..] = rest {
        if stand.ends_field(*byte) || stand.ends_record(*byte) {
            return rest;
        }
        stand = stand.after(*byte);
        rest = later;
    }
    rest
}

// How many line ends a text begins with.
fn break_length(text: &[u8]) -> usize
    ensures { result ≡ break_length text.now }
{
    text.iter()
        .take_while(|byte| **byte == b'\r' || **byte == b'\n')
        .count()
}

// A text from its first record on.
fn from_first(text: &[u8]) -> &[u8]
    ensures { result.now ≡ from_first text.now }
{
    &text[break_length(text)..]
}

// A text that begins with a record, from the next one on.
fn from_next(text: &[u8]) -> &[u8]
    ensures { result.now ≡ from_next text.now }
{
    from_first(behind_record(text))
}

// A text that begins with a record, from the record of a number on, counted from 0.
fn from_record(text: &[u8], number: u64) -> &[u8]
    ensures { result.now ≡ from_record number text.now }
{
    let mut rest = text;
    'records: for done in 0..number {
        if rest.is_empty() {
            return rest;
        }
        rest = from_next(rest);
    }
    rest
}

// A file from its record of a number on, counted from 1.
fn record_rest(text: &[u8], number: u64) -> Option<&[u8]>
    ensures { option_map (λ rest. rest.now) result ≡ record_rest text.now number }
{
    if number == 0 {
        return None;
    }
    match from_record(from_first(without_mark(text)), number - 1) {
        [] => None,
        rest => Some(rest),
    }
}

/// The record of this number, counted from 1.
pub fn record_at(text: &[u8], number: u64) -> Option<Piece<'_>>
    ensures { option_map (λ piece. (piece.start, piece.text.now)) result ≡ record_of text.now number }
{
    let rest = record_rest(text, number)?;
    Some(Piece {
        start: text.len().saturating_sub(rest.len()),
        text: part(rest, behind_record(rest)),
    })
}

// How many commas of a record end fields.
fn comma_count(text: &[u8]) -> usize
    ensures value { result ≡ comma_count st.StartField text.now }
    ensures bound { result ≤ length text.now }
{
    let mut stand = Stand::StartField;
    let mut rest = text;
    let mut count = 0usize;
    'bytes: while let [byte, later @ ..] = rest {
        count += usize::from(stand.ends_field(*byte));
        stand = stand.after(*byte);
        rest = later;
    }
    count
}

// What stands behind a byte, where a text begins with it.
pub(crate) fn behind_byte(text: &[u8], byte: u8) -> Option<&[u8]>
    ensures { option_map (λ rest. rest.now) result ≡ behind_byte byte text.now }
{
    match text {
        [first, rest @ ..] if byte == *first => Some(rest),
        _ => None,
    }
}

// A record from its field of a number on, counted from 0.
fn from_field(text: &[u8], number: u64) -> Option<&[u8]>
    ensures { option_map (λ rest. rest.now) result ≡ from_field number text.now }
{
    let mut rest = text;
    'fields: for done in 0..number {
        match behind_byte(behind_field(rest), b',') {
            Some(later) => rest = later,
            None => return None,
        }
    }
    Some(rest)
}

// A file from the field of a number on, counted from 1, of a record.
fn field_rest(text: &[u8], record_number: u64, number: u64) -> Option<&[u8]>
    ensures { option_map (λ rest. rest.now) result ≡ field_rest text.now record_number number }
{
    if number == 0 {
        return None;
    }
    from_field(record_rest(text, record_number)?, number - 1)
}

/// The field of this number of a record, both counted from 1.
pub fn field_at(text: &[u8], record_number: u64, number: u64) -> Option<Piece<'_>>
    ensures { option_map (λ piece. (piece.start, piece.text.now)) result ≡ field_of text.now record_number number }
{
    let rest = field_rest(text, record_number, number)?;
    Some(Piece {
        start: text.len().saturating_sub(rest.len()),
        text: part(rest, behind_field(rest)),
    })
}

/// How many fields the text of a record has.
pub fn field_count(record_text: &[u8]) -> usize
    ensures { result ≡ comma_count st.StartField record_text.now + 1 }
{
    comma_count(record_text) + 1
}

// Where the last field begins, once the reader stands somewhere with this behind it.
fn later_field<'a>(stand: Stand, field: &'a [u8], later: &'a [u8]) -> &'a [u8]
    ensures { result.now ≡ (if begins_field (state_of stand) then later.now else field.now) }
{
    if stand.begins_field() { later } else { field }
}

// What stands from the last field on, where its quote is open at the end of the text.
fn open_field(text: &[u8]) -> Option<&[u8]>
    ensures { option_map (λ rest. rest.now) result ≡ open_field st.StartRecord text.now text.now }
{
    let mut stand = Stand::StartRecord;
    let mut rest = text;
    let mut field = text;
    'bytes: while let [byte, later @ ..] = rest {
        stand = stand.after(*byte);
        field = later_field(stand, field, later);
        rest = later;
    }
    if stand.is_quoted() { Some(field) } else { None }
}

/// The place of the quoted field that a file ends in, where its quote is not closed.
pub fn open_quote(text: &[u8]) -> Option<usize>
    ensures { result ≡ open_quote text.now }
{
    match open_field(without_mark(text)) {
        Some(field) => Some(text.len().saturating_sub(field.len())),
        None => None,
    }
}
