//! Faults of variables: 5.8 and F31.

use crate::subject::{Sort, Subject};
use crate::types::{put_type, put_written_type};
use crate::values::variable_text;
use hq_base::{Bytes, Json, Memory, Txt};
use hq_explain_places::Words;
use hq_gql_nodes::Node;
use hq_gql_tree::{Definition, VarDef};
use std::alloc::Global;

fn put_variable(words: &mut Words, name: &[u8]) {
    words.put("variable \"$");
    words.put_shown(name);
    words.put("\"");
}

// The definition of a variable at the place.
fn defined<'a>(subject: &Subject<'a>) -> Option<&'a VarDef> {
    match subject.node(Sort::Variable) {
        Some(Node::Variable(var_def, _)) => Some(var_def),
        _ => None,
    }
}

/// 5.8.1 and 5.8.4: what is wrong with the definition at the place.
pub fn of_variable(words: &mut Words, subject: &Subject<'_>, said: &str) {
    if let Some(var_def) = defined(subject) {
        put_variable(words, var_def.name.as_bytes());
        words.put(said);
    }
}

/// 5.8.2: a type that no values are given for.
pub fn no_input_type(words: &mut Words, subject: &Subject<'_>) {
    if let Some(var_def) = defined(subject) {
        put_variable(words, var_def.name.as_bytes());
        words.put(" is of type ");
        put_written_type(words, &var_def.ty);
        words.put(
            ", which is unknown or an object type; values are of scalars, enums and input objects",
        );
    }
}

// The first definition of a variable of this name.
fn definition_of<'a>(subject: &Subject<'a>, name: &[u8]) -> Option<&'a VarDef> {
    for definition in &subject.document.definitions {
        if let Definition::Operation(operation) = definition {
            for var_def in &operation.vars {
                if var_def.name.as_bytes() == name {
                    return Some(var_def);
                }
            }
        }
    }
    None
}

/// 5.8.3: a variable that is not defined.
pub fn undefined(words: &mut Words, subject: &Subject<'_>) {
    let name = variable_text(subject);
    put_variable(words, name);
    words.put(" is not defined; define it behind the operation's name: ($");
    words.put_shown(name);
    words.put(": ");
    match subject.node(Sort::Value) {
        Some(Node::Value(_, Some(place))) => put_type(words, subject.schema, place.ty),
        _ => words.put("TYPE"),
    }
    words.put(")");
}

/// 5.8.5: a variable whose type does not fit.
pub fn wrong_type(words: &mut Words, subject: &Subject<'_>) {
    let name = variable_text(subject);
    put_variable(words, name);
    if let Some(var_def) = definition_of(subject, name) {
        words.put(" is of type ");
        put_written_type(words, &var_def.ty);
    }
    if let Some(Node::Value(_, Some(place))) = subject.node(Sort::Value) {
        words.put(", but expected is ");
        put_type(words, subject.schema, place.ty);
    }
}

// Adds the value that a request gives to a variable.
fn put_given(alloc: Global, words: &mut Words, given: Option<&Json>) -> Result<(), Memory> {
    match given {
        None => words.put(" has no value"),
        Some(value) => {
            let mut text = Bytes::new(alloc);
            value.write_to(alloc, &mut text)?;
            words.put(" is given ");
            words.put_shown(text.as_slice());
        }
    }
    Ok(())
}

// The value that a request gives to a variable.
fn given_to<'a>(body: &'a Json, name: &Txt) -> Option<&'a Json> {
    match body.member("variables") {
        Some(variables) => variables.member(name.as_str()),
        None => None,
    }
}

/// F31: a variable without a value, or with one of another type.
pub fn wrong_variable(
    alloc: Global,
    words: &mut Words,
    subject: &Subject<'_>,
    body: &Json,
) -> Result<(), Memory> {
    let Some(var_def) = defined(subject) else {
        return Ok(());
    };
    put_variable(words, var_def.name.as_bytes());
    words.put(" of type ");
    put_written_type(words, &var_def.ty);
    put_given(alloc, words, given_to(body, &var_def.name))
}
