//! The place of a node in the text of a JSON value, by a path such as `$.tables[0].columns[2].type`.
ghost use Rattle.std.specs.Prelude.{◌≡◌, ◌<◌, ◌-◌, None, drop, length, option_map};
ghost use Rattle.hq_explain_places.specs.Nodes.{behind_comma, behind_element, behind_member, behind_value, begins_step, blank_length, child, element_entry, ends_before, ends_behind, ends_word, entries, entry_at, if_step, inner_path, is_blank, is_closing, is_opening, member_entry, name_in, node, node_at, open_after, taken, unblanked, value_text};
ghost use Rattle.hq_base.specs.Text.{after};
ghost use Rattle.hq_explain_places.specs.NodeViews.{entry_view, node_view};
ghost use Rattle.hq_explain_places.specs.declared.quoted.Quoted.TheVariants as quoted;

use crate::quoted::Quoted;
use crate::records::{behind_byte, part};
use itoa::Buffer;

/// What a path leads to: the place of the node, or of the last node on the way to it, and what of the path is missing there.
#[derive(Clone, Copy)]
pub struct Found<'a> {
    pub at: usize,
    pub missing: &'a [u8],
}

fn is_blank(byte: u8) -> bool
    ensures { result ≡ is_blank byte }
{
    byte == b' ' || byte == b'\n' || byte == b'\r' || byte == b'\t'
}

// How many blanks a text begins with.
fn blank_length(text: &[u8]) -> usize
    ensures { result ≡ blank_length text.now }
{
    text.iter().take_while(|byte| is_blank(**byte)).count()
}

// A text behind the blanks that it begins with.
fn unblanked(text: &[u8]) -> &[u8]
    ensures { result.now ≡ unblanked text.now }
{
    &text[blank_length(text)..]
}

fn is_opening(byte: u8) -> bool
    ensures { result ≡ is_opening byte }
{
    byte == b'{' || byte == b'['
}

fn is_closing(byte: u8) -> bool
    ensures { result ≡ is_closing byte }
{
    byte == b'}' || byte == b']'
}

// How many brackets are open behind a byte.
fn open_after(quoted: Quoted, open_count: usize, byte: u8) -> usize
    requires { open_count < usize.MAX }
    ensures { result ≡ open_after quoted open_count byte }
{
    if quoted.is_outside() && is_opening(byte) {
        open_count + 1
    } else if quoted.is_outside() && is_closing(byte) {
        open_count.saturating_sub(1)
    } else {
        open_count
    }
}

// Whether a byte ends a number or a word.
fn ends_word(byte: u8) -> bool
    ensures { result ≡ ends_word byte }
{
    byte == b',' || is_closing(byte) || is_blank(byte)
}

// Whether a value ends before a byte.
fn ends_before(quoted: Quoted, open_count: usize, byte: u8) -> bool
    ensures { result ≡ ends_before quoted open_count byte }
{
    quoted.is_outside() && open_count == 0 && ends_word(byte)
}

// Whether a value ends behind a byte.
fn ends_behind(quoted: Quoted, open_count: usize, byte: u8) -> bool
    requires { open_count < usize.MAX }
    ensures { result ≡ ends_behind quoted open_count byte }
{
    quoted.after(byte).is_outside()
        && open_after(quoted, open_count, byte) == 0
        && (is_closing(byte) || byte == b'"')
}

// A text from the end of the value on that it begins with.
fn behind_value(text: &[u8]) -> &[u8]
    ensures { result.now ≡ behind_value quoted.Outside 0 text.now }
{
    let mut quoted = Quoted::Outside;
    let mut open_count = 0usize;
    let mut rest = text;
    'bytes: while let [byte, later @ ..] = rest {
        if ends_before(quoted, open_count, *byte) {
            return rest;
        }
        if ends_behind(quoted, open_count, *byte) {
            return later;
        }
        open_count = open_after(quoted, open_count, *byte);
        quoted = quoted.after(*byte);
        rest = later;
    }
    rest
}

// The value that a text begins with.
fn value_text(text: &[u8]) -> &[u8]
    ensures { result.now ≡ value_text text.now }
{
    part(text, behind_value(text))
}

// A text from the comma on that follows the value that it begins with.
fn behind_comma(text: &[u8]) -> Option<&[u8]>
    ensures { option_map (λ rest. rest.now) result ≡ behind_comma text.now }
{
    behind_byte(unblanked(behind_value(text)), b',')
}

/// The text of the value that begins at a place.
pub fn value_at(text: &[u8], start: usize) -> &[u8]
    ensures { result.now ≡ value_text (drop start text.now) }
{
    value_text(if start < text.len() {
        &text[start..]
    } else {
        &[]
    })
}

// Whether a path ends or goes on here.
fn begins_step(path: &[u8]) -> bool
    ensures { result ≡ begins_step path.now }
{
    match path {
        [] => true,
        [first, ..] => *first == b'.' || *first == b'[',
    }
}

fn if_step(path: &[u8]) -> Option<&[u8]>
    ensures { option_map (λ rest. rest.now) result ≡ if_step path.now }
{
    if begins_step(path) { Some(path) } else { None }
}

// What follows a front, where a text begins with it.
fn behind<'a>(text: &'a [u8], front: &[u8]) -> Option<&'a [u8]>
    ensures { option_map (λ rest. rest.now) result ≡ after front.now text.now }
{
    let mut rest = text;
    let mut left = front;
    'bytes: while let [byte, later @ ..] = left {
        match behind_byte(rest, *byte) {
            Some(next) => rest = next,
            None => return None,
        }
        left = later;
    }
    Some(rest)
}

// What of a path stands behind a member's name, where that is the next of it.
fn behind_member<'a>(path: &'a [u8], name: &[u8]) -> Option<&'a [u8]>
    ensures { option_map (λ rest. rest.now) result ≡ behind_member path.now name.now }
{
    let rest = behind(path, b".")?;
    if_step(behind(rest, name)?)
}

// What of a path stands behind an element's number, where that is the next of it.
fn behind_element(path: &[u8], number: usize) -> Option<&[u8]>
    ensures { option_map (λ rest. rest.now) result ≡ behind_element path.now number }
{
    let rest = behind(path, b"[")?;
    let mut buffer = Buffer::new();
    let rest = behind(rest, buffer.format(number).as_bytes())?;
    behind(rest, b"]")
}

// The entry of a list or an object: the text from its value on, and what of the path stands behind its name or number.
#[derive(Clone, Copy)]
struct Entry<'t, 'p> {
    value: &'t [u8],
    path: Option<&'p [u8]>,
}

// The element of this number, which a list goes on with.
fn element_entry<'t, 'p>(path: &'p [u8], number: usize, text: &'t [u8]) -> Option<Entry<'t, 'p>>
    ensures { option_map entry_view result ≡ element_entry path.now number text.now }
{
    match text {
        [] => None,
        [first, ..] if is_closing(*first) => None,
        _ => Some(Entry {
            value: text,
            path: behind_element(path, number),
        }),
    }
}

// The name in quotes that a text begins with.
fn name_in(text: &[u8]) -> &[u8]
    ensures { result.now ≡ name_in text.now }
{
    let quoted = value_text(text);
    match &quoted[..quoted.len().saturating_sub(1)] {
        [] => &[],
        [_, name @ ..] => name,
    }
}

// The member that an object goes on with.
fn member_entry<'t, 'p>(path: &'p [u8], text: &'t [u8]) -> Option<Entry<'t, 'p>>
    ensures { option_map entry_view result ≡ member_entry path.now text.now }
{
    let rest = behind_byte(unblanked(behind_value(text)), b':')?;
    Some(Entry {
        value: unblanked(rest),
        path: behind_member(path, name_in(text)),
    })
}

// The entry that a list or an object goes on with.
fn entry_at<'t, 'p>(
    is_list: bool,
    path: &'p [u8],
    number: usize,
    text: &'t [u8],
) -> Option<Entry<'t, 'p>>
    ensures { option_map entry_view result ≡ entry_at is_list path.now number text.now }
{
    if is_list {
        element_entry(path, number, text)
    } else {
        member_entry(path, text)
    }
}

// A node on the way: the text from its value on, and what of the path is still to be found in it.
#[derive(Clone, Copy)]
struct Node<'t, 'p> {
    value: &'t [u8],
    path: &'p [u8],
}

// The node that an entry is, where it is next in the path, or the one that was found before.
fn taken<'t, 'p>(found: Option<Node<'t, 'p>>, entry: Entry<'t, 'p>) -> Option<Node<'t, 'p>>
    ensures { option_map node_view result ≡ taken (option_map node_view found.entry) (entry_view entry.entry) }
{
    match entry.path {
        Some(path) => Some(Node {
            value: entry.value,
            path,
        }),
        None => found,
    }
}

// The last entry that is next in a path, of those that a list or an object goes on with.
fn entries<'t, 'p>(is_list: bool, path: &'p [u8], text: &'t [u8]) -> Option<Node<'t, 'p>>
    ensures { option_map node_view result ≡ entries (length text.now) is_list path.now 0 text.now None }
{
    let mut rest = text;
    let mut found = None;
    'entries: for number in 0..text.len() {
        let Some(entry) = entry_at(is_list, path, number, unblanked(rest)) else {
            return found;
        };
        found = taken(found, entry);
        let Some(later) = behind_comma(entry.value) else {
            return found;
        };
        rest = later;
    }
    found
}

// What a path leads to in the value that a text begins with.
fn child<'t, 'p>(text: &'t [u8], path: &'p [u8]) -> Option<Node<'t, 'p>>
    ensures { option_map node_view result ≡ child text.now path.now }
{
    match text {
        [first, rest @ ..] if is_opening(*first) => entries(*first == b'[', path, rest),
        _ => None,
    }
}

// The node that a path leads to, or the last one on the way.
fn descend<'t, 'p>(text: &'t [u8], path: &'p [u8]) -> Node<'t, 'p>
    ensures { node_view result ≡ node (length path.now) (text.now, path.now) }
{
    let mut here = Node { value: text, path };
    'steps: for done in 0..path.len() {
        match child(here.value, here.path) {
            Some(next) => here = next,
            None => return here,
        }
    }
    here
}

// A path without the `$` that stands for the whole text.
fn inner_path(path: &[u8]) -> &[u8]
    ensures { result.now ≡ inner_path path.now }
{
    match behind(path, b"$") {
        Some(inner) => inner,
        None => path,
    }
}

/// The node of this path in the text of a JSON value: of a name that stands twice in an object the last one. Names that the text writes
/// with escapes are not found.
pub fn find<'a>(text: &[u8], path: &'a [u8]) -> Found<'a>
    ensures at { result.at ≡ length text.now - length (node_at text.now path.now).0 }
    ensures missing { result.missing.now ≡ (node_at text.now path.now).1 }
{
    let node = descend(unblanked(text), inner_path(path));
    Found {
        at: text.len().saturating_sub(node.value.len()),
        missing: node.path,
    }
}
