//! The line of a text around a place, with a mark below the place.
ghost use Rattle.std.specs.Prelude.{ℕ, ◌≡◌, ◌≤◌, replicate};
ghost use Rattle.hq_explain_places.specs.Words.{Adds};
ghost use Rattle.hq_explain_places.specs.Excerpts.{blank_dots, blank_margin, character_count, dots, excerpt, last_bytes, length_inside, line_told, margin, marks_told, shown_front};

use crate::place::begins_character;
use crate::{Line, Words, line_around, place_of};
use itoa::Buffer;

// The most bytes of a line that are shown before the place, and from it on.
const BEFORE: usize = 70;

const BEHIND: usize = 50;

// What of the bytes before a place is shown, the first character perhaps not whole.
fn last_bytes(before: &[u8]) -> &[u8]
    ensures { result.now ≡ last_bytes before.now }
{
    &before[before.len().saturating_sub(BEFORE)..]
}

// How many of these bytes stand before the first character that begins in them.
fn length_inside(bytes: &[u8]) -> usize
    ensures { result ≡ length_inside bytes.now }
{
    bytes
        .iter()
        .take_while(|byte| !begins_character(**byte))
        .count()
}

// What of the bytes before a place is shown.
fn shown_front(before: &[u8]) -> &[u8]
    ensures { result.now ≡ shown_front before.now }
{
    let last = last_bytes(before);
    &last[length_inside(last)..]
}

// How many characters begin in these bytes.
fn character_count(bytes: &[u8]) -> usize
    ensures { result ≡ character_count bytes.now }
{
    bytes.iter().filter(|byte| begins_character(**byte)).count()
}

// What stands in the place of the bytes that are not shown.
fn dots(before: &[u8]) -> &'static str
    ensures { result.now ≡ dots before.now }
{
    if before.len() > BEFORE { ".." } else { "" }
}

fn blank_dots(before: &[u8]) -> &'static str
    ensures { result.now ≡ blank_dots before.now }
{
    if before.len() > BEFORE { "  " } else { "" }
}

// Adds a byte so many times.
fn put_repeated(words: &mut Words, byte: u8, count: usize)
    ensures { Adds words.old words.new (replicate count byte) }
{
    'times: for done in 0..count {
        words.put_byte(byte);
    }
}

fn put_margin(words: &mut Words, line: u128)
    ensures { Adds words.old words.new (margin line) }
{
    words.put("  ");
    words.put(Buffer::new().format(line));
    words.put(" | ");
}

fn put_blank_margin(words: &mut Words, line: u128)
    ensures { Adds words.old words.new (blank_margin line) }
{
    let digits = Buffer::new().format(line).len();
    words.put("  ");
    put_repeated(words, b' ', digits);
    words.put(" | ");
}

fn put_line(words: &mut Words, number: u128, line: &Line<'_>)
    ensures { Adds words.old words.new (line_told number line.now.before.now line.now.behind.now) }
{
    put_margin(words, number);
    words.put(dots(line.before));
    words.put_cut(shown_front(line.before), BEFORE);
    words.put_cut(line.behind, BEHIND);
    words.put("\n");
}

fn is_name(byte: u8) -> bool {
    byte.is_ascii_alphanumeric() || byte == b'_'
}

// How many bytes of these a name has.
fn name_length(rest: &[u8]) -> usize {
    rest.iter().take_while(|byte| is_name(**byte)).count()
}

// How many bytes the token has that these begin with.
fn token_length(rest: &[u8]) -> usize {
    match rest {
        [b'$' | b'@' | b'-', name @ ..] => name_length(name).saturating_add(1),
        [b'.', b'.', b'.', ..] => 3,
        [b'"', text @ ..] => text
            .iter()
            .take_while(|byte| **byte != b'"')
            .count()
            .saturating_add(2),
        _ => name_length(rest),
    }
}

// How many characters of the token that these begin with are shown, at least one.
fn mark_count(rest: &[u8]) -> usize
    ensures { 1 ≤ result }
{
    let length = token_length(rest).min(BEHIND).min(rest.len());
    character_count(&rest[..length]).max(1)
}

fn put_marks(words: &mut Words, number: u128, before: &[u8], marks: usize)
    ensures { Adds words.old words.new (marks_told number before.now marks) }
{
    put_blank_margin(words, number);
    words.put(blank_dots(before));
    put_repeated(words, b' ', character_count(shown_front(before)));
    put_repeated(words, b'^', marks);
    words.put("\n");
}

/// Adds the line around a place of a text, and below it a mark for each character of the token at the place.
pub fn put_excerpt(words: &mut Words, text: &[u8], at: usize)
    ensures { (marks : ℕ) × (1 ≤ marks) × Adds words.old words.new (excerpt text.now at marks) }
{
    let place = place_of(text, at);
    let line = line_around(text, at);
    put_line(words, place.line, &line);
    put_marks(words, place.line, line.before, mark_count(line.behind));
}
