//! Faults of the query's text: F3 and F4.

use hq_explain_places::{Words, piece};
use hq_gql_lexer::{LexRefusal, lex};
use hq_gql_parser::{ParseRefusal, parse};
use std::alloc::Global;

// The bytes of the token, or of what stands in its place, that begins here.
fn token_at(text: &[u8], at: usize) -> &[u8] {
    let rest = piece(text, at, text.len());
    let length = match rest {
        [b'.', b'.', b'.', ..] => 3,
        _ => rest
            .iter()
            .take_while(|byte| byte.is_ascii_alphanumeric() || **byte == b'_' || **byte >= 128)
            .count()
            .max(1),
    };
    piece(rest, 0, length.min(rest.len()))
}

/// F3: a place at which no token begins.
pub fn bad_token(alloc: Global, words: &mut Words, text: &[u8], at: u64) {
    match lex(alloc, text) {
        Err(LexRefusal::BadEscape { .. }) => {
            words.put(
                "no escape of a string; those are \\\" \\\\ \\/ \\b \\f \\n \\r \\t and \\u with 4 digits",
            );
        }
        Err(LexRefusal::OpenString { .. }) => words.put("this string is not closed"),
        Err(LexRefusal::BadNumber { .. }) => {
            words.put("no number: ");
            words.put_quoted(token_at(text, at as usize));
        }
        _ => {
            words.put("unexpected character ");
            words.put_quoted(token_at(text, at as usize));
        }
    }
}

// How many brackets are open at the end of a text, strings and comments not looked at.
fn open_brackets(text: &[u8]) -> usize {
    let opened = text
        .iter()
        .filter(|byte| matches!(**byte, b'{' | b'[' | b'('))
        .count();
    let closed = text
        .iter()
        .filter(|byte| matches!(**byte, b'}' | b']' | b')'))
        .count();
    opened.saturating_sub(closed)
}

fn put_unexpected(words: &mut Words, text: &[u8], at: usize) {
    if at < text.len() {
        words.put("unexpected ");
        words.put_quoted(token_at(text, at));
        return;
    }
    words.put("the text ends too early");
    let open = open_brackets(text);
    if open > 0 {
        words.put(": brackets that are not closed: ");
        words.put_count(open);
    }
}

/// F4: tokens that spell no document.
pub fn bad_syntax(alloc: Global, words: &mut Words, text: &[u8], at: u64) {
    let Ok(tokens) = lex(alloc, text) else {
        return;
    };
    match parse(alloc, &tokens, text.len() as u64) {
        Err(ParseRefusal::TooDeep { .. }) => words.put("the 51st bracket that is open at once"),
        Err(ParseRefusal::Empty) => words.put("the text has no token"),
        _ => put_unexpected(words, text, at as usize),
    }
}
