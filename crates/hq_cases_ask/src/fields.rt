//! Typed requests in words: tables are `t` with their place, columns `c`, relationships `r`; names of types stand in quotes.

use crate::arguments::push_args;
use hq_base::{Txt, Val};
use hq_cases_file::{Words, push_bexp, push_value};
use hq_model::{Bexp, ColId, RelId, TableId};
use hq_request_tree::{
    AggCol, AggField, AggPart, AggParts, Args, Ask, AskField, AskFields, Bound, IntroField,
    IntroFields, KeyedAggCol, KeyedAggField,
};

// The key of the field at a place, behind what parts it from the one before.
fn push_key(at: usize, key: &Txt, words: &mut Words) {
    words.push(if at == 0 { "" } else { ", " });
    words.push_pair(key.as_str(), ": ");
}

fn push_type(name: &Txt, words: &mut Words) {
    words.push_pair("'", name.as_str());
    words.push("'");
}

// A letter with a place.
fn push_at(letter: &str, at: usize, words: &mut Words) {
    words.push(letter);
    words.push_place(at);
}

fn push_count(col: Option<ColId>, distinct: bool, words: &mut Words) {
    words.push(if distinct { "count distinct" } else { "count" });
    if let Some(col) = col {
        push_at(" c", col.at(), words);
    }
}

fn push_taken(word: &str, taken: &[KeyedAggCol], words: &mut Words) {
    words.push_pair(word, " {");
    for (at, one) in taken.iter().enumerate() {
        push_key(at, &one.key, words);
        match &one.field {
            AggCol::Column { col } => push_at("c", col.at(), words),
            AggCol::Typename { name } => push_type(name, words),
        }
    }
    words.push("}");
}

fn push_summary(field: &AggField, words: &mut Words) {
    match field {
        AggField::Count { col, distinct } => push_count(*col, *distinct, words),
        AggField::Columns { aggregate, columns } => {
            push_taken(aggregate.name(), columns.as_slice(), words)
        }
        AggField::Typename { name } => push_type(name, words),
    }
}

fn push_summaries(fields: &[KeyedAggField], words: &mut Words) {
    words.push("of {");
    for (at, one) in fields.iter().enumerate() {
        push_key(at, &one.key, words);
        push_summary(&one.field, words);
    }
    words.push("}");
}

// The name of a field of introspection, with its arguments.
fn push_look_head(field: &IntroField, words: &mut Words) {
    words.push(field.name.as_str());
    if let Some(name) = &field.type_name {
        words.push(" ");
        push_type(name, words);
    }
    words.push(if field.deprecated { " deprecated" } else { "" });
}

#[cycle(look)]
fn push_look(field: &IntroField, words: &mut Words) {
    push_look_head(field, words);
    if !field.fields.is_empty() {
        push_looks(&field.fields, words);
    }
}

#[cycle(look)]
fn push_looks(fields: &IntroFields, words: &mut Words) {
    words.push(" {");
    for (at, one) in fields.iter().enumerate() {
        push_key(at, &one.key, words);
        push_look(&one.field, words);
    }
    words.push("}");
}

fn push_values(values: &[Val], words: &mut Words) {
    for (at, value) in values.iter().enumerate() {
        words.push(if at == 0 { "" } else { ", " });
        push_value(value, words);
    }
}

// The rows of a list: the relationship, if there is one, the table, and the arguments.
fn push_list(table: TableId, rel: Option<RelId>, args: &Args, words: &mut Words) {
    if let Some(rel) = rel {
        push_at("r", rel.at(), words);
        words.push(" ");
    }
    push_at("t", table.at(), words);
    push_args(args, words);
}

fn push_by_key(table: TableId, key: &[Val], words: &mut Words) {
    push_at("t", table.at(), words);
    words.push(" key ");
    push_values(key, words);
}

// What stands at a field, before the fields below it.
fn push_head(field: &AskField, words: &mut Words) {
    match field {
        AskField::Column { col } => push_at("c", col.at(), words),
        AskField::Typename { name } => push_type(name, words),
        AskField::NoQueries => words.push("no queries"),
        AskField::Object { rel, .. } => push_at("r", rel.at(), words),
        AskField::List {
            table,
            rel,
            args,
            ..
        } => push_list(*table, *rel, args, words),
        AskField::ByPk { table, key, .. } => push_by_key(*table, key.as_slice(), words),
        AskField::Aggregate {
            table,
            rel,
            args,
            ..
        } => push_list(*table, *rel, args, words),
        AskField::Introspect { field } => push_look(field, words),
    }
}

// The fields below a field.
#[cycle(ask)]
fn push_below(field: &AskField, words: &mut Words) {
    match field {
        AskField::Object { fields, .. }
        | AskField::List { fields, .. }
        | AskField::ByPk { fields, .. } => push_fields(" {", fields, words),
        AskField::Aggregate { parts, .. } => push_parts(parts, words),
        _ => {}
    }
}

#[cycle(ask)]
fn push_fields(opening: &str, fields: &AskFields, words: &mut Words) {
    words.push(opening);
    for (at, one) in fields.iter().enumerate() {
        push_key(at, &one.key, words);
        push_head(&one.field, words);
        push_below(&one.field, words);
    }
    words.push("}");
}

#[cycle(ask)]
fn push_part(part: &AggPart, words: &mut Words) {
    match part {
        AggPart::Fields(fields) => push_summaries(fields.as_slice(), words),
        AggPart::Nodes(fields) => push_fields("nodes {", fields, words),
        AggPart::Typename { name } => push_type(name, words),
    }
}

#[cycle(ask)]
fn push_parts(parts: &AggParts, words: &mut Words) {
    words.push(" aggregate {");
    for (at, one) in parts.iter().enumerate() {
        push_key(at, &one.key, words);
        push_part(&one.part, words);
    }
    words.push("}");
}

// Adds the rows at which a place has something to show.
fn push_shown(kind: &str, place: usize, shown: &Bexp, words: &mut Words) {
    push_at(kind, place, words);
    words.push(" where ");
    push_bexp(shown, words);
}

fn push_bound(one: &Bound, words: &mut Words) {
    push_shown("; t", one.table.at(), &one.filter, words);
    for mask in &one.masks {
        push_shown(", c", mask.col.at(), &mask.shown, words);
    }
}

fn push_all_bound(bound: &[Bound], words: &mut Words) {
    for one in bound {
        push_bound(one, words);
    }
}

/// Adds a typed request: its fields, and each touched table with its bound filter and masks.
pub fn push_ask(ask: &Ask, words: &mut Words) {
    push_fields("{", &ask.fields, words);
    push_all_bound(ask.bound.as_slice(), words);
}
