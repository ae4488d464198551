//! The arguments of lists in words.

use hq_cases_file::{Words, push_bexp};
use hq_model::{Bexp, ColId, RelId};
use hq_request_tree::{Args, Sort};

fn push_through(through: &[RelId], words: &mut Words) {
    for rel in through {
        words.push("r");
        words.push_place(rel.at());
        words.push(".");
    }
}

// A sort: its column, its direction, and the place of NULLs.
fn push_sort(sort: &Sort, words: &mut Words) {
    push_through(sort.through.as_slice(), words);
    words.push("c");
    words.push_place(sort.col.at());
    words.push(if sort.desc {
        " desc nulls "
    } else {
        " asc nulls "
    });
    words.push(if sort.nulls_first { "first" } else { "last" });
}

fn push_sorts(sorts: &[Sort], words: &mut Words) {
    for (at, sort) in sorts.iter().enumerate() {
        words.push(if at == 0 { " order " } else { ", " });
        push_sort(sort, words);
    }
}

fn push_distinct(cols: &[ColId], words: &mut Words) {
    for (at, col) in cols.iter().enumerate() {
        words.push(if at == 0 { " distinct c" } else { ", c" });
        words.push_place(col.at());
    }
}

fn push_where(filter: &Bexp, words: &mut Words) {
    match filter {
        Bexp::True => {}
        _ => {
            words.push(" where ");
            push_bexp(filter, words);
        }
    }
}

fn push_rows(word: &str, rows: Option<u32>, words: &mut Words) {
    if let Some(rows) = rows {
        words.push(word);
        words.push_number(u64::from(rows));
    }
}

/// Adds the arguments of a list, each behind a blank; those that choose nothing are left out.
pub fn push_args(args: &Args, words: &mut Words) {
    push_where(&args.filter, words);
    push_sorts(args.sorts.as_slice(), words);
    push_rows(" limit ", args.limit, words);
    push_rows(" offset ", args.offset, words);
    push_distinct(args.distinct.as_slice(), words);
}
