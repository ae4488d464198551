//! A filter in words, over the tables of a catalog.

use hq_base::Val;
use hq_explain_places::Words;
use hq_model::{
    Arity, Bexp, BexpList, Catalog, ColId, Meta, Op, Operand, Operands, Operator, RelId, TableId,
    Test,
};

/// What a filter is over: a table of a catalog, with its relationships.
#[derive(Clone, Copy)]
pub struct FilterTable<'a> {
    pub catalog: &'a Catalog,
    pub meta: &'a Meta,
    pub table: TableId,
}

impl<'a> FilterTable<'a> {
    // The same catalog, at another table of it.
    fn of(&self, table: TableId) -> FilterTable<'a> {
        FilterTable {
            catalog: self.catalog,
            meta: self.meta,
            table,
        }
    }
}

fn put_value(words: &mut Words, value: &Val) {
    match value {
        Val::Null => words.put("NULL"),
        Val::Int(number) => words.put_int(*number),
        Val::Text(text) => words.put_name(text),
        Val::Bool(true) => words.put("true"),
        Val::Bool(false) => words.put("false"),
    }
}

fn put_operand(words: &mut Words, operand: &Operand) {
    match operand {
        Operand::Const(value) => put_value(words, value),
        Operand::Session(name) => words.put_bytes(name.as_bytes()),
    }
}

fn put_list(words: &mut Words, operands: &[Operand]) {
    for (at, operand) in operands.iter().enumerate() {
        words.put(if at == 0 { "" } else { ", " });
        put_operand(words, operand);
    }
}

// The operands of a test, in brackets where it takes a list of them. A list that a session variable gives goes by the variable's name.
fn put_operands(words: &mut Words, test: Test, operands: &Operands) {
    match operands {
        Operands::Session(name) => words.put_bytes(name.as_bytes()),
        Operands::List(operands) if test.arity() == Arity::Many => {
            words.put("(");
            put_list(words, operands.as_slice());
            words.put(")");
        }
        Operands::List(operands) => put_list(words, operands.as_slice()),
    }
}

fn put_column(words: &mut Words, scope: &FilterTable<'_>, col: ColId) {
    if let Some(table) = scope.catalog.table(scope.table)
        && let Some(column) = table.column(col)
    {
        words.put_bytes(column.name.as_bytes());
    }
}

// A column, what is said of it, and what it is tested against.
fn put_test(
    words: &mut Words,
    scope: &FilterTable<'_>,
    col: ColId,
    test: Test,
    operands: &Operands,
    negated: bool,
) {
    put_column(words, scope, col);
    words.put(Operator { test, negated }.words());
    put_operands(words, test, operands);
}

// How a column stands to another one of the same row.
fn put_compared(words: &mut Words, scope: &FilterTable<'_>, left: ColId, op: Op, right: ColId) {
    put_column(words, scope, left);
    words.put(op.sign());
    put_column(words, scope, right);
}

// Expressions in brackets with a word between them, or what they come to where there are none.
#[cycle(bexp)]
fn put_members(
    words: &mut Words,
    scope: &FilterTable<'_>,
    word: &str,
    none: &str,
    bexps: &BexpList,
) {
    if bexps.is_empty() {
        words.put(none);
        return;
    }
    words.put("(");
    for (at, bexp) in bexps.iter().enumerate() {
        words.put(if at == 0 { "" } else { word });
        put_filter(words, scope, bexp);
    }
    words.put(")");
}

// The table behind a relationship; adds the relationship's name.
fn behind<'a>(words: &mut Words, scope: &FilterTable<'a>, rel: RelId) -> Option<FilterTable<'a>> {
    let tracked = scope.meta.tracked_table(scope.table)?;
    let found = tracked.rel(rel)?;
    words.put_bytes(found.name.as_bytes());
    Some(scope.of(found.remote))
}

// What a row that is sought is to meet; nothing where any row is.
#[cycle(bexp)]
fn put_with(words: &mut Words, scope: &FilterTable<'_>, inner: &Bexp) {
    match inner {
        Bexp::True => {}
        Bexp::And(_) | Bexp::Or(_) => {
            words.put(" with ");
            put_filter(words, scope, inner);
        }
        _ => {
            words.put(" with (");
            put_filter(words, scope, inner);
            words.put(")");
        }
    }
}

#[cycle(bexp)]
fn put_through(words: &mut Words, scope: &FilterTable<'_>, rel: RelId, inner: &Bexp) {
    words.put("some ");
    if let Some(remote) = behind(words, scope, rel) {
        put_with(words, &remote, inner);
    }
}

// Adds a table's name in the database.
fn put_table(words: &mut Words, scope: &FilterTable<'_>) {
    if let Some(table) = scope.catalog.table(scope.table) {
        words.put_bytes(table.schema.as_bytes());
        words.put(".");
        words.put_bytes(table.name.as_bytes());
    }
}

#[cycle(bexp)]
fn put_exists(words: &mut Words, scope: &FilterTable<'_>, inner: &Bexp) {
    words.put("some row of ");
    put_table(words, scope);
    put_with(words, scope, inner);
}

/// Adds a filter.
#[cycle(bexp)]
pub fn put_filter(words: &mut Words, scope: &FilterTable<'_>, bexp: &Bexp) {
    match bexp {
        Bexp::True => words.put("true"),
        Bexp::And(bexps) => put_members(words, scope, " and ", "true", bexps),
        Bexp::Or(bexps) => put_members(words, scope, " or ", "false", bexps),
        Bexp::Not(inner) => {
            words.put("not ");
            put_filter(words, scope, inner);
        }
        Bexp::Test {
            col,
            test,
            operands,
            negated,
        } => put_test(words, scope, *col, *test, operands, *negated),
        Bexp::Through { rel, inner } => put_through(words, scope, *rel, inner),
        Bexp::Exists { table, inner } => put_exists(words, &scope.of(*table), inner),
        Bexp::Columns { left, op, right } => put_compared(words, scope, *left, *op, *right),
    }
}
