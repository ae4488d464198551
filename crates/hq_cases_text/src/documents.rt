//! Tokens and documents.

use crate::printer::push_document;
use hq_cases_file::{Case, Stop, Words};
use hq_gql_lexer::{Token, TokenKind, lex};
use hq_gql_parser::parse;
use std::alloc::Global;

/// The tokens of a text, or its refusal.
pub fn tell_tokens(alloc: Global, case: &Case, words: &mut Words) -> Result<(), Stop> {
    let text = case.bytes(alloc, "in")?;
    push_lexed(alloc, text.as_slice(), words);
    Ok(())
}

fn push_lexed(alloc: Global, text: &[u8], words: &mut Words) {
    match lex(alloc, text) {
        Ok(tokens) => push_tokens(tokens.as_slice(), words),
        Err(refusal) => words.push_debug(&refusal),
    }
}

fn push_tokens(tokens: &[Token], words: &mut Words) {
    for token in tokens {
        push_kind(&token.kind, words);
        words.push(" ");
        words.push_number(token.from);
        words.push("..");
        words.push_number(token.to);
        words.push(";");
    }
}

// The kind of a token, and its text.
fn push_kind(kind: &TokenKind, words: &mut Words) {
    match kind {
        TokenKind::Punct(punct) => words.push_debug(punct),
        TokenKind::Name(text) => words.push_pair("Name ", text.as_str()),
        TokenKind::Int(text) => words.push_pair("Int ", text.as_str()),
        TokenKind::Float(text) => words.push_pair("Float ", text.as_str()),
        TokenKind::Str(text) => words.push_pair("Str ", text.as_str()),
    }
}

/// The document of a text, or its refusal.
pub fn tell_document(alloc: Global, case: &Case, words: &mut Words) -> Result<(), Stop> {
    let text = case.bytes(alloc, "in")?;
    push_parsed(alloc, text.as_slice(), words);
    Ok(())
}

fn push_parsed(alloc: Global, text: &[u8], words: &mut Words) {
    match lex(alloc, text) {
        Ok(tokens) => match parse(alloc, &tokens, text.len() as u64) {
            Ok(document) => push_document(&document, words),
            Err(refusal) => words.push_debug(&refusal),
        },
        Err(refusal) => words.push_debug(&refusal),
    }
}
