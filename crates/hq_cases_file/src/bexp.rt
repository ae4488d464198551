//! Boolean expressions in words: columns are `c` with their place, relationships `r` and tables `t` with theirs, session
//! variables `$` with their name.

use crate::{Words, push_value};
use hq_model::{Arity, Bexp, BexpList, Op, Operand, Operands, Operator, Test};

fn push_operand(operand: &Operand, words: &mut Words) {
    match operand {
        Operand::Const(value) => push_value(value, words),
        Operand::Session(name) => words.push_pair("$", name.as_str()),
    }
}

// What stands before the member at a place.
fn before(at: usize) -> &'static str {
    if at == 0 { "" } else { ", " }
}

// A column and what is said of it.
fn push_column(col: usize, said: &str, words: &mut Words) {
    words.push("c");
    words.push_place(col);
    words.push(said);
}

fn push_list(operands: &[Operand], words: &mut Words) {
    words.push("[");
    for (at, operand) in operands.iter().enumerate() {
        words.push(before(at));
        push_operand(operand, words);
    }
    words.push("]");
}

// Operands, in brackets where they are a list.
fn push_operands(test: Test, operands: &Operands, words: &mut Words) {
    match operands {
        Operands::Session(name) => words.push_pair("$", name.as_str()),
        Operands::List(operands) if test.arity() == Arity::Many => {
            push_list(operands.as_slice(), words);
        }
        Operands::List(operands) => {
            for operand in operands.as_slice() {
                push_operand(operand, words);
            }
        }
    }
}

// A column, what is said of it, and the operands.
fn push_test(col: usize, test: Test, operands: &Operands, negated: bool, words: &mut Words) {
    push_column(col, Operator { test, negated }.words(), words);
    push_operands(test, operands, words);
}

// How a column stands to another one.
fn push_columns(left: usize, op: Op, right: usize, words: &mut Words) {
    push_column(left, op.sign(), words);
    words.push("c");
    words.push_place(right);
}

#[cycle(bexp)]
fn push_members(word: &str, bexps: &BexpList, words: &mut Words) {
    words.push_pair(word, "(");
    for (at, bexp) in bexps.iter().enumerate() {
        words.push(before(at));
        push_bexp(bexp, words);
    }
    words.push(")");
}

// An expression at rows behind a relationship, or of a table.
#[cycle(bexp)]
fn push_behind(mark: &str, place: usize, inner: &Bexp, words: &mut Words) {
    words.push(mark);
    words.push_place(place);
    words.push(": ");
    push_bexp(inner, words);
}

/// Adds an expression.
#[cycle(bexp)]
pub fn push_bexp(bexp: &Bexp, words: &mut Words) {
    match bexp {
        Bexp::True => words.push("true"),
        Bexp::And(bexps) => push_members("and", bexps, words),
        Bexp::Or(bexps) => push_members("or", bexps, words),
        Bexp::Not(inner) => {
            words.push("not ");
            push_bexp(inner, words);
        }
        Bexp::Test {
            col,
            test,
            operands,
            negated,
        } => push_test(col.at(), *test, operands, *negated, words),
        Bexp::Through { rel, inner } => push_behind("r", rel.at(), inner, words),
        Bexp::Exists { table, inner } => push_behind("t", table.at(), inner, words),
        Bexp::Columns { left, op, right } => push_columns(left.at(), *op, right.at(), words),
    }
}
