//! Paths of nodes, as `$.tables[0].columns[2].type`.

use hq_explain_places::piece;

// How many bytes stand before the last byte of this kind, None where there is none.
fn last_of(path: &[u8], byte: u8) -> Option<usize> {
    path.iter().rposition(|other| *other == byte)
}

/// The last member's name that a path has, without the numbers of elements.
pub fn last_name(path: &[u8]) -> &[u8] {
    let start = match last_of(path, b'.') {
        Some(at) => at.saturating_add(1),
        None => 0,
    };
    let name = piece(path, start, path.len());
    let end = match name.iter().position(|byte| *byte == b'[') {
        Some(at) => at,
        None => name.len(),
    };
    piece(name, 0, end)
}

/// Whether a path ends in the number of an element.
pub fn is_element(path: &[u8]) -> bool {
    path.ends_with(b"]")
}

/// The path of what a node stands in.
pub fn parent(path: &[u8]) -> &[u8] {
    let at = match (last_of(path, b'.'), last_of(path, b'[')) {
        (Some(dot), Some(bracket)) => dot.max(bracket),
        (Some(at), None) | (None, Some(at)) => at,
        (None, None) => 0,
    };
    piece(path, 0, at)
}

// Whether a piece stands in a path from here on.
fn is_at(path: &[u8], at: usize, sought: &[u8]) -> bool {
    piece(path, at, path.len()).starts_with(sought)
}

// The place behind the first piece of a path that is this one.
fn index_behind(path: &[u8], sought: &[u8]) -> Option<usize> {
    for (at, _) in path.iter().enumerate() {
        if is_at(path, at, sought) {
            return Some(at.saturating_add(sought.len()));
        }
    }
    None
}

/// What stands behind the first piece of a path that is this one.
pub fn behind<'a>(path: &'a [u8], sought: &[u8]) -> Option<&'a [u8]> {
    let start = index_behind(path, sought)?;
    Some(piece(path, start, path.len()))
}

/// Whether a piece stands in a path.
pub fn has(path: &[u8], sought: &[u8]) -> bool {
    index_behind(path, sought).is_some()
}

// Whether a name of a path is of a connective, which leads to no other table.
fn is_connective(name: &[u8]) -> bool {
    name.is_empty()
        || name == b"_not".as_slice()
        || name.starts_with(b"_and[")
        || name.starts_with(b"_or[")
}

/// Whether the names of a path are of connectives alone.
pub fn has_connectives_alone(path: &[u8]) -> bool {
    path.split(|byte| *byte == b'.').all(is_connective)
}

/// The number behind the first piece of a path that is this one.
pub fn number_behind(path: &[u8], sought: &[u8]) -> Option<usize> {
    let mut number = 0usize;
    for byte in behind(path, sought)? {
        if *byte == b']' {
            return Some(number);
        }
        number = number
            .saturating_mul(10)
            .saturating_add(usize::from(byte.saturating_sub(b'0')));
    }
    None
}
