//! Names of what is there.

use hq_explain_places::Words;
use hq_schema::Named;

// The most names that are shown of a list.
const SHOWN: usize = 40;

/// Adds the names of a list, or that there is none.
pub fn put_list<T: Named>(words: &mut Words, items: &[T]) {
    if items.is_empty() {
        words.put("none");
    }
    for (at, item) in items.iter().enumerate() {
        if at >= SHOWN {
            words.put(" and ");
            words.put_count(items.len().saturating_sub(SHOWN));
            words.put(" more");
            return;
        }
        words.put(if at == 0 { "" } else { ", " });
        words.put_bytes(item.name().as_bytes());
    }
}

/// Adds names as `put_list` does, behind what says that they are there.
pub fn put_known<T: Named>(words: &mut Words, front: &str, items: &[T]) {
    words.put(front);
    put_list(words, items);
}

/// Adds a word before each name but the first.
pub fn put_comma(words: &mut Words, first: bool) {
    if !first {
        words.put(", ");
    }
}
