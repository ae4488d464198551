//! A statement in lines.

use hq_explain_places::{Words, piece};
use std::alloc::Global;

// Whether a quote is open: none, that of a name, or that of a text.
#[derive(Clone, Copy, PartialEq, Eq)]
enum Quote {
    Outside,
    Name,
    Text,
}

impl Quote {
    fn behind(self, byte: u8) -> Quote {
        match (self, byte) {
            (Quote::Outside, b'"') => Quote::Name,
            (Quote::Outside, b'\'') => Quote::Text,
            (Quote::Name, b'"') | (Quote::Text, b'\'') => Quote::Outside,
            (before, _) => before,
        }
    }
}

// The words that begin a line.
const CLAUSES: [&str; 6] = [
    "FROM ",
    "LEFT JOIN LATERAL ",
    "WHERE ",
    "ORDER BY ",
    "LIMIT ",
    "OFFSET ",
];

// Whether what stands behind a bracket is a select that gets lines of its own: not the one row that a statement begins with.
fn begins_select(rest: &[u8]) -> bool {
    rest.starts_with(b"SELECT ") && !rest.starts_with(b"SELECT TRUE AS \"u\")")
}

fn begins_clause(rest: &[u8]) -> bool {
    CLAUSES
        .iter()
        .any(|clause| rest.starts_with(clause.as_bytes()))
}

// The brackets that are open, each with whether it is that of a select.
#[derive(Drop)]
struct Layout {
    selects: Vec<bool>,
    depth: usize,
    full: bool,
}

impl Layout {
    fn open(&mut self, is_select: bool) {
        if self.selects.push(is_select).is_err() {
            self.full = true;
        }
        if is_select {
            self.depth = self.depth.saturating_add(1);
        }
    }

    fn close(&mut self) {
        if self.selects.pop() == Some(true) {
            self.depth = self.depth.saturating_sub(1);
        }
    }

    // Whether what stands here is a part of a select itself.
    fn is_in_select(&self) -> bool {
        match self.selects.last() {
            None => true,
            Some(is_select) => *is_select,
        }
    }

    fn put_line(&self, words: &mut Words) {
        words.put("\n  ");
        for _ in 0..self.depth {
            words.put("  ");
        }
    }

    // Adds a byte outside quotes; `rest` stands behind it.
    fn put(&mut self, words: &mut Words, byte: u8, rest: &[u8]) {
        if byte == b' ' && self.is_in_select() && begins_clause(rest) {
            self.put_line(words);
            return;
        }
        words.put_byte(byte);
        if byte == b'(' {
            let is_select = begins_select(rest);
            self.open(is_select);
            if is_select {
                self.put_line(words);
            }
        } else if byte == b')' {
            self.close();
        }
    }
}

/// Adds the text of a statement, each clause on a line of its own, and what stands in brackets further to the right.
pub fn put_statement(alloc: Global, words: &mut Words, text: &[u8]) {
    let mut layout = Layout {
        selects: Vec::new(alloc),
        depth: 0,
        full: false,
    };
    let mut quote = Quote::Outside;
    words.put("  ");
    for (at, byte) in text.iter().enumerate() {
        if quote == Quote::Outside {
            layout.put(words, *byte, piece(text, at.saturating_add(1), text.len()));
        } else {
            words.put_byte(*byte);
        }
        quote = quote.behind(*byte);
    }
    words.put("\n");
    words.stop_if(layout.full);
}
