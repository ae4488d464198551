//! A refused table file in words.

use crate::known::put_columns;
use hq_base::{Bytes, Memory, Ty};
use hq_explain_places::{
    Piece, Words, field_at, field_count, open_quote, place_of, put_excerpt, record_at,
};
use hq_load_tables::LoadRefusal;
use hq_model::{Column, Table};
use std::alloc::Global;

// The name in quotes that a field of the header is, without its own quotes.
fn bare(field: &[u8]) -> &[u8] {
    match field {
        [b'"', name @ .., b'"'] => name,
        name => name,
    }
}

// The name of the column at a field.
fn column_name(text: &[u8], col: u64) -> &[u8] {
    match field_at(text, 1, col) {
        Some(field) => bare(field.text),
        None => &[],
    }
}

fn column_named<'a>(table: &'a Table, name: &[u8]) -> Option<&'a Column> {
    table
        .columns
        .as_slice()
        .iter()
        .find(|column| column.name.as_bytes() == name)
}

// Adds the line and column at which a record begins.
fn put_start(words: &mut Words, text: &[u8], record: u64) {
    if let Some(found) = record_at(text, record) {
        words.put_place(place_of(text, found.start));
    }
}

fn put_record(words: &mut Words, text: &[u8], record: u64) {
    if let Some(found) = record_at(text, record) {
        put_excerpt(words, text, found.start);
    }
}

fn of_header(words: &mut Words, text: &[u8], table: &Table) {
    words.put("1:1: the header is ");
    if let Some(found) = record_at(text, 1) {
        words.put_quoted(found.text);
    } else {
        words.put("not there");
    }
    words.put("; it is to be the table's columns, each once, in any order: ");
    put_columns(words, table);
    words.put("\n");
}

// How many fields a record has, none where there is no such record.
fn fields_of(text: &[u8], record: u64) -> usize {
    match record_at(text, record) {
        Some(found) => field_count(found.text),
        None => 0,
    }
}

fn of_width(words: &mut Words, text: &[u8], line: u64) {
    put_start(words, text, line);
    words.put(": record ");
    words.put_number(line);
    words.put(" has ");
    let fields = fields_of(text, line);
    words.put_count(fields);
    words.put(if fields == 1 { " field" } else { " fields" });
    words.put(", and the header ");
    words.put_count(fields_of(text, 1));
    words.put("\n");
    put_record(words, text, line);
}

// What is wanted of a column.
fn put_want(words: &mut Words, column: Option<&Column>) {
    let Some(column) = column else {
        return;
    };
    words.put(match column.ty {
        Ty::Integer => ", a whole number from -2147483648 to 2147483647",
        Ty::Bigint => ", a whole number of 64 bits",
        Ty::Boolean => ", which is t, f, true or false",
        Ty::Uuid =>
            ", 32 digits of hexadecimal in small letters, in groups of 8, 4, 4, 4 and 12 with a hyphen between two",
        _ => "",
    });
}

fn of_field(words: &mut Words, text: &[u8], table: &Table, line: u64, col: u64, said: &str) {
    let Some(Piece { start, text: value }) = field_at(text, line, col) else {
        return;
    };
    let name = column_name(text, col);
    words.put_place(place_of(text, start));
    words.put(": ");
    words.put_quoted(value);
    words.put(said);
    words.put(" column ");
    words.put_quoted(name);
    put_want(words, column_named(table, name));
    words.put("\n");
    put_excerpt(words, text, start);
}

fn of_open_quote(words: &mut Words, text: &[u8], line: u64) {
    if let Some(at) = open_quote(text) {
        words.put_place(place_of(text, at));
        words.put(": the quote of a field of record ");
        words.put_number(line);
        words.put(
            " is not closed, so that it takes all rows behind it; a quote inside a field is written twice\n",
        );
        put_excerpt(words, text, at);
    }
}

// The field of a column in the header's order, counted from 1.
fn field_of(text: &[u8], column: &Column) -> Option<u64> {
    for done in 0..fields_of(text, 1) {
        let col = (done as u64).saturating_add(1);
        if column_name(text, col) == column.name.as_bytes() {
            return Some(col);
        }
    }
    None
}

// Adds the values of the key of a record.
fn put_key(words: &mut Words, text: &[u8], table: &Table, line: u64) {
    for (at, col) in table.key.as_slice().iter().enumerate() {
        words.put(if at == 0 { "" } else { ", " });
        if let Some(column) = table.column(*col)
            && let Some(field) = field_of(text, column)
            && let Some(value) = field_at(text, line, field)
        {
            words.put_bytes(column.name.as_bytes());
            words.put(" = ");
            words.put_shown(value.text);
        }
    }
}

fn of_repeated(words: &mut Words, text: &[u8], table: &Table, line: u64, earlier: u64) {
    put_start(words, text, line);
    words.put(": the key ");
    put_key(words, text, table, line);
    words.put(" stands in record ");
    words.put_number(earlier);
    words.put(" already, at ");
    put_start(words, text, earlier);
    words.put("\n");
    put_record(words, text, line);
}

fn of_refusal(words: &mut Words, text: &[u8], table: &Table, refusal: LoadRefusal) {
    match refusal {
        LoadRefusal::Header => of_header(words, text, table),
        LoadRefusal::Width { line } => of_width(words, text, line),
        LoadRefusal::NotUtf8 { line, col } => of_field(
            words,
            text,
            table,
            line,
            col,
            " is no UTF-8 in",
        ),
        LoadRefusal::ZeroByte { line, col } => of_field(
            words,
            text,
            table,
            line,
            col,
            " has a zero byte in",
        ),
        LoadRefusal::NotInteger { line, col } => {
            of_field(words, text, table, line, col, " is no value of")
        }
        LoadRefusal::NotBoolean { line, col } | LoadRefusal::NotUuid { line, col } => {
            of_field(words, text, table, line, col, " is no value of")
        }
        LoadRefusal::NullInNotNull { line, col } => {
            of_field(
                words,
                text,
                table,
                line,
                col,
                " is NULL, which may not stand in",
            )
        }
        LoadRefusal::Unclosed { line } => of_open_quote(words, text, line),
        LoadRefusal::RepeatedKey { line, earlier } => of_repeated(
            words, text, table, line, earlier,
        ),
        LoadRefusal::Memory => {}
    }
}

/// Why the text of a table's file is refused, and where.
pub fn table_words(
    alloc: Global,
    text: &[u8],
    table: &Table,
    refusal: LoadRefusal,
) -> Result<Bytes, Memory> {
    let mut words = Words::new(alloc);
    words.put_bytes(table.schema.as_bytes());
    words.put(".");
    words.put_bytes(table.name.as_bytes());
    words.put(".csv:");
    of_refusal(&mut words, text, table, refusal);
    words.told()
}
