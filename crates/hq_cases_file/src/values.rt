//! Values, JSON and sessions in words.

use crate::{Stop, Words};
use hq_base::{Bytes, Json, Txt, Val};
use hq_model::Session;
use std::alloc::Global;

/// The value of a table that a JSON value writes.
pub fn value(alloc: Global, json: &Json) -> Result<Val, Stop> {
    match json {
        Json::Null => Ok(Val::Null),
        Json::Bool(b) => Ok(Val::Bool(*b)),
        Json::Int(n) => match i64::try_from(*n) {
            Ok(n) => Ok(Val::Int(n)),
            Err(_) => Err(Stop::Shape),
        },
        Json::Str(text) => Ok(Val::Text(text.copy(alloc)?)),
        _ => Err(Stop::Shape),
    }
}

/// Adds a value: texts stand in quotes.
pub fn push_value(value: &Val, words: &mut Words) {
    match value {
        Val::Null => words.push("NULL"),
        Val::Int(n) => words.push_shown(n),
        Val::Text(text) => {
            words.push_pair("'", text.as_str());
            words.push("'");
        }
        Val::Bool(b) => words.push_shown(b),
    }
}

/// Adds bytes, which are to be a text.
pub fn push_bytes(alloc: Global, bytes: &[u8], words: &mut Words) {
    match Txt::of(alloc, bytes) {
        Ok(text) => words.push(text.as_str()),
        Err(refusal) => words.stop(Stop::from(refusal)),
    }
}

/// Adds the compact text of a JSON value.
pub fn push_json(alloc: Global, json: &Json, words: &mut Words) {
    let mut bytes = Bytes::new(alloc);
    match json.write_to(alloc, &mut bytes) {
        Ok(()) => push_bytes(alloc, bytes.as_slice(), words),
        Err(memory) => words.stop(Stop::from(memory)),
    }
}

/// Adds the role and the variables of a session.
pub fn push_session(session: &Session, words: &mut Words) {
    words.push_pair(session.role.as_str(), ":");
    for var in session.vars.as_slice() {
        words.push_pair(" ", var.name.as_str());
        words.push_pair("=", var.value.as_str());
    }
}
