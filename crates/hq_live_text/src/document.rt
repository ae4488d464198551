//! The document of a query text, and its live text.
ghost use Rattle.std.specs.Prelude.{◌≡◌, IfOk};
ghost use Rattle.std.specs.Option.{option_map};
ghost use Rattle.hq_gql_tree.specs.View.{document_view};
ghost use Rattle.hq_live_text.specs.LiveText.{document_in, live_query};

use crate::keyword::{has_subscription, put_queries};
use hq_base::{Memory, Txt};
use hq_gql_lexer::{LexRefusal, lex};
use hq_gql_parser::{ParseRefusal, parse};
use hq_gql_tree::Document;
use std::alloc::Global;

// The document that a text spells, where it spells one.
fn document_in(alloc: Global, text: &[u8]) -> Result<Option<Document>, Memory>
    ensures { IfOk result (λ document. option_map document_view document ≡ document_in text.now) }
{
    let tokens = match lex(alloc, text) {
        Ok(tokens) => tokens,
        Err(LexRefusal::Memory) => return Err(Memory),
        Err(_) => return Ok(None),
    };
    match parse(alloc, &tokens, text.len() as u64) {
        Ok(document) => Ok(Some(document)),
        Err(ParseRefusal::Memory) => Err(Memory),
        Err(_) => Ok(None),
    }
}

/// The live text of a query text in which a keyword is to be written anew.
pub fn live_query(alloc: Global, text: &Txt) -> Result<Option<Txt>, Memory>
    ensures { IfOk result (λ live. live ≡ live_query text.now) }
{
    let Some(document) = document_in(alloc, text.as_bytes())? else {
        return Ok(None);
    };
    if !has_subscription(&document.definitions) {
        return Ok(None);
    }
    let mut bytes = Vec::from_slice(alloc, text.as_bytes())?;
    put_queries(&mut bytes, &document.definitions);
    // Letters in place of letters leave a text a text, so that it wants memory at most.
    match Txt::of(alloc, &bytes) {
        Ok(text) => Ok(Some(text)),
        Err(_) => Err(Memory),
    }
}
