//! Faults of values: 5.6.

use crate::lists::put_known;
use crate::subject::{Sort, Subject};
use crate::types::{put_type, put_type_name};
use hq_explain_places::{Words, piece};
use hq_gql_nodes::{Node, is_non_null};
use hq_gql_tree::Value;
use hq_schema::{TypeId, TypeRef};

// Adds a value in words.
fn put_value(words: &mut Words, value: &Value) {
    match value {
        Value::Int(text) | Value::Float(text) | Value::Enum(text) => words.put_shown(
            text.as_bytes(),
        ),
        Value::Str(text) => words.put_name(text),
        Value::Bool(true) => words.put("true"),
        Value::Bool(false) => words.put("false"),
        Value::Null => words.put("null"),
        Value::List(_) => words.put("a list"),
        Value::Object(_) => words.put("an object"),
        Value::Variable(name) => {
            words.put("$");
            words.put_shown(name.as_bytes());
        }
    }
}

// Adds the values of an enum, or the members of an input object.
fn put_known_of(words: &mut Words, subject: &Subject<'_>, ty: &TypeRef) {
    let Some(def) = subject.schema.type_at(ty.base()) else {
        return;
    };
    if !def.values.as_slice().is_empty() {
        put_known(words, "; it has: ", def.values.as_slice());
    }
    if !def.inputs.as_slice().is_empty() {
        put_known(words, "; it is an object of: ", def.inputs.as_slice());
    }
}

/// 5.6.1: a value of another type.
pub fn wrong_value(words: &mut Words, subject: &Subject<'_>) {
    let Some(Node::Value(value, place)) = subject.node(Sort::Value) else {
        return;
    };
    match place {
        Some(place) => {
            words.put("expected ");
            put_type(words, subject.schema, place.ty);
            words.put(", found ");
            put_value(words, &value.value);
            put_known_of(words, subject, place.ty);
        }
        None => {
            words.put("no place takes the fraction ");
            put_value(words, &value.value);
        }
    }
}

/// 5.6.2: no such member.
pub fn unknown_member(words: &mut Words, subject: &Subject<'_>) {
    let Some(Node::Member(member, input)) = subject.node(Sort::Member) else {
        return;
    };
    words.put("no field ");
    words.put_name(&member.name);
    let Some(def) = subject.schema.types.get(input.unwrap_or(0)) else {
        return;
    };
    words.put(" in ");
    words.put_name(&def.name);
    put_known(words, "; it has: ", def.inputs.as_slice());
}

/// 5.6.3: a member that is given twice.
pub fn repeated_member(words: &mut Words, subject: &Subject<'_>) {
    if let Some(Node::Member(member, _)) = subject.node(Sort::Member) {
        words.put("field ");
        words.put_name(&member.name);
        words.put(" is given twice in one object");
    }
}

// Adds the members of an input object that are required.
fn put_required(words: &mut Words, subject: &Subject<'_>, ty: TypeId) {
    let Some(def) = subject.schema.type_at(ty) else {
        return;
    };
    for input in def.inputs.as_slice() {
        if is_non_null(&input.ty) {
            words.put(" ");
            words.put_name(&input.name);
        }
    }
}

/// 5.6.4: a required member that is not given.
pub fn lacking_member(words: &mut Words, subject: &Subject<'_>) {
    words.put("a required field is lacking");
    if let Some(Node::Value(_, Some(place))) = subject.node(Sort::Value) {
        words.put(" of ");
        put_type_name(words, subject.schema, place.ty.base());
        words.put(", which wants");
        put_required(words, subject, place.ty.base());
    }
}

/// The text of the variable at the place, without its `$`.
pub fn variable_text<'a>(subject: &Subject<'a>) -> &'a [u8] {
    let rest = piece(
        subject.text,
        subject.index().saturating_add(1),
        subject.text.len(),
    );
    let length = rest
        .iter()
        .take_while(|byte| byte.is_ascii_alphanumeric() || **byte == b'_')
        .count();
    piece(rest, 0, length)
}
