//! Faults of the body: F1 and F2.

use hq_base::Json;
use hq_explain_places::{Words, put_not_json};
use std::alloc::Global;

/// F1: the body is not read.
pub fn of_body(alloc: Global, words: &mut Words, body: &[u8]) {
    words.put("in the body at ");
    put_not_json(alloc, words, body);
}

/// F2: the body has not the form of a request.
pub fn of_form(words: &mut Words, body: &Json) {
    if body.as_object().is_none() {
        words.put("the body is no object");
        return;
    }
    match body.member("query") {
        None => words.put("the body has no \"query\""),
        Some(Json::Str(_)) => of_members(words, body),
        Some(_) => words.put("\"query\" is no text"),
    }
}

fn of_members(words: &mut Words, body: &Json) {
    match body.member("variables") {
        None | Some(Json::Null | Json::Obj(_)) => words.put("\"operationName\" is no text"),
        Some(_) => words.put("\"variables\" is no object"),
    }
}
