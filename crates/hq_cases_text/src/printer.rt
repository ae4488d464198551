//! A document in words: what it spells, each node behind its place.

use hq_base::Txt;
use hq_cases_file::Words;
use hq_gql_tree::{
    Argument, Definition, Directive, Document, Field, Fragment, Inline, OpKind, Operation, Placed,
    Selection, Spread, TypeCond, TypeRefTree, Value, VarDef,
};

/// Adds the words of a document.
pub fn push_document(document: &Document, words: &mut Words) {
    for definition in &document.definitions {
        match definition {
            Definition::Operation(operation) => push_operation(operation, words),
            Definition::Fragment(fragment) => push_fragment(fragment, words),
        }
    }
}

// A place, and what stands at it.
fn push_at(at: u64, said: &str, words: &mut Words) {
    words.push_number(at);
    words.push(said);
}

fn kind_of(kind: OpKind) -> &'static str {
    match kind {
        OpKind::Query => " query",
        OpKind::Mutation => " mutation",
        OpKind::Subscription => " subscription",
    }
}

fn push_operation(operation: &Operation, words: &mut Words) {
    push_at(operation.at, kind_of(operation.kind), words);
    push_name(" ", &operation.name, "", words);
    for var in &operation.vars {
        push_variable(var, words);
    }
    push_directives(&operation.directives, words);
    push_selections(&operation.selections, words);
}

fn push_name(before: &str, name: &Option<Txt>, after: &str, words: &mut Words) {
    if let Some(name) = name {
        words.push_pair(before, name.as_str());
        words.push(after);
    }
}

fn push_variable(var: &VarDef, words: &mut Words) {
    words.push(" (");
    push_at(var.at, " $", words);
    words.push_pair(var.name.as_str(), ": ");
    push_type(&var.ty, words);
    if let Some(default) = &var.default {
        words.push(" = ");
        push_value(default, words);
    }
    push_directives(&var.directives, words);
    words.push(")");
}

fn push_type(ty: &TypeRefTree, words: &mut Words) {
    match ty {
        TypeRefTree::Named { at, name } => {
            push_at(*at, " ", words);
            words.push(name.as_str());
        }
        TypeRefTree::List { at, of } => {
            push_at(*at, " [", words);
            push_type(of, words);
            words.push("]");
        }
        TypeRefTree::NonNull { at, of } => {
            push_at(*at, " ", words);
            push_type(of, words);
            words.push("!");
        }
    }
}

// A value that holds no others.
fn push_scalar(value: &Value, words: &mut Words) {
    match value {
        Value::Int(text) | Value::Float(text) | Value::Enum(text) => words.push(text.as_str()),
        Value::Str(text) => {
            words.push_pair("\"", text.as_str());
            words.push("\"");
        }
        Value::Bool(b) => words.push_shown(b),
        Value::Null => words.push("null"),
        Value::Variable(name) => words.push_pair("$", name.as_str()),
        Value::List(_) | Value::Object(_) => {}
    }
}

#[cycle(value)]
fn push_value(placed: &Placed, words: &mut Words) {
    push_at(placed.at, " ", words);
    match &placed.value {
        Value::List(values) => push_list(values, words),
        Value::Object(members) => push_arguments("{", members, "}", words),
        value => push_scalar(value, words),
    }
}

#[cycle(value)]
fn push_list(values: &Vec<Placed>, words: &mut Words) {
    words.push("[");
    for value in values {
        push_value(value, words);
        words.push(",");
    }
    words.push("]");
}

#[cycle(value)]
fn push_arguments(open: &str, arguments: &Vec<Argument>, close: &str, words: &mut Words) {
    words.push(open);
    for argument in arguments {
        push_at(argument.at, " ", words);
        words.push_pair(argument.name.as_str(), ": ");
        push_value(&argument.value, words);
        words.push(",");
    }
    words.push(close);
}

fn push_directives(directives: &Vec<Directive>, words: &mut Words) {
    for directive in directives {
        words.push(" ");
        push_at(directive.at, " @", words);
        words.push(directive.name.as_str());
        push_arguments("(", &directive.args, ")", words);
    }
}

fn push_selections(selections: &Vec<Selection>, words: &mut Words) {
    words.push(" {");
    for selection in selections {
        push_front(selection, words);
        match selection {
            Selection::Field(field) => push_selections(&field.selections, words),
            Selection::Inline(inline) => push_selections(&inline.selections, words),
            Selection::Spread(_) => {}
        }
        words.push(",");
    }
    words.push("}");
}

// What stands before the selections in a selection.
fn push_front(selection: &Selection, words: &mut Words) {
    match selection {
        Selection::Field(field) => push_field(field, words),
        Selection::Spread(spread) => push_spread(spread, words),
        Selection::Inline(inline) => push_inline(inline, words),
    }
}

fn push_field(field: &Field, words: &mut Words) {
    push_at(field.at, " ", words);
    push_name("", &field.alias, ": ", words);
    words.push(field.name.as_str());
    push_arguments("(", &field.args, ")", words);
    push_directives(&field.directives, words);
}

fn push_spread(spread: &Spread, words: &mut Words) {
    push_at(spread.at, " ...", words);
    words.push(spread.name.as_str());
    push_directives(&spread.directives, words);
}

fn push_inline(inline: &Inline, words: &mut Words) {
    push_at(inline.at, " ...", words);
    if let Some(cond) = &inline.cond {
        push_condition(cond, words);
    }
    push_directives(&inline.directives, words);
}

fn push_condition(cond: &TypeCond, words: &mut Words) {
    words.push(" ");
    push_at(cond.at, " on ", words);
    words.push(cond.name.as_str());
}

fn push_fragment(fragment: &Fragment, words: &mut Words) {
    push_at(fragment.at, " fragment ", words);
    words.push(fragment.name.as_str());
    push_condition(&fragment.cond, words);
    push_directives(&fragment.directives, words);
    push_selections(&fragment.selections, words);
}
