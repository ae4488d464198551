//! Faults of arguments: 5.4.

use crate::lists::put_known;
use crate::subject::{Owner, Sort, Subject};
use crate::types::put_type;
use hq_explain_places::Words;
use hq_gql_nodes::{Node, args_of_directive, args_of_field, is_non_null, is_null};
use hq_gql_tree::Argument;
use hq_schema::{ArgDef, ArgDefList};

// What the argument at the place is given to.
fn put_owner(words: &mut Words, subject: &Subject<'_>) {
    match subject.owner() {
        Some(Owner::Field(field)) => {
            words.put(" of field ");
            words.put_name(&field.name);
        }
        Some(Owner::Directive(directive)) => {
            words.put(" of @");
            words.put_bytes(directive.name.as_bytes());
        }
        None => {}
    }
}

/// 5.4.1: no such argument.
pub fn unknown_argument(words: &mut Words, subject: &Subject<'_>) {
    let Some(Node::Argument(argument, known)) = subject.node(Sort::Argument) else {
        return;
    };
    words.put("no argument ");
    words.put_name(&argument.name);
    put_owner(words, subject);
    if let Some(known) = known {
        put_known(words, "; it has: ", known.as_slice());
    }
}

/// 5.4.2: an argument that is given twice.
pub fn repeated_argument(words: &mut Words, subject: &Subject<'_>) {
    let Some(Node::Argument(argument, _)) = subject.node(Sort::Argument) else {
        return;
    };
    words.put("argument ");
    words.put_name(&argument.name);
    put_owner(words, subject);
    words.put(" is given twice");
}

// Whether an argument is required, and is not given or null.
fn is_lacking(def: &ArgDef, given: &[Argument]) -> bool {
    is_non_null(&def.ty)
        && !def.default_false
        && !given
            .iter()
            .any(|arg| arg.name == def.name && !is_null(&arg.value.value))
}

// Adds the first argument that is lacking.
fn put_lacking(
    words: &mut Words,
    subject: &Subject<'_>,
    known: Option<&ArgDefList>,
    given: &[Argument],
) {
    let Some(known) = known else {
        return;
    };
    for def in known.as_slice() {
        if is_lacking(def, given) {
            words.put(" wants the argument ");
            words.put_name(&def.name);
            words.put(" of type ");
            put_type(words, subject.schema, &def.ty);
            return;
        }
    }
}

/// 5.4.2.1: a required argument that is not given.
pub fn lacking_argument(words: &mut Words, subject: &Subject<'_>) {
    match subject.node(Sort::Field) {
        Some(Node::Field(field, parent)) => {
            words.put("field ");
            words.put_name(&field.name);
            let known = args_of_field(subject.schema, parent, &field.name);
            put_lacking(words, subject, known, &field.args);
        }
        _ => lacking_of_directive(words, subject),
    }
}

fn lacking_of_directive(words: &mut Words, subject: &Subject<'_>) {
    let Some(Node::Directive(directive, _)) = subject.node(Sort::Directive) else {
        return;
    };
    words.put("@");
    words.put_bytes(directive.name.as_bytes());
    let known = args_of_directive(subject.schema, &directive.name);
    put_lacking(words, subject, known, &directive.args);
}
