//! The lines of a block string.
ghost use Rattle.std.specs.Prelude.{◌≡◌, ◌∷◌, [], ◌<◌, ◌≤◌, length, map, not, IsTrue, IfOk, unwrap_or};
ghost use Rattle.std.specs.List.{prefix_len, suffix_len, join_with_byte};
ghost use Rattle.hq_gql_lexer.specs.Characters.{is_line_end, next_is};
ghost use Rattle.hq_gql_lexer.specs.BlockStrings.{lines_of, indent_of, is_blank, common_indent, dedented, without_blank_front, without_blank_back};

use crate::byte::{is_line_end, is_white_space};
use hq_base::Memory;
use std::alloc::Global;

// How many bytes stand before the line's end.
pub(crate) fn line_len(bytes: &[u8]) -> usize
    ensures len { result ≡ prefix_len (λ b. not (is_line_end b)) bytes.now }
    ensures within { result ≤ length bytes.now }
{
    bytes.iter().take_while(|b| !is_line_end(**b)).count()
}

// What follows the line end at the front.
fn after_line_end(bytes: &[u8]) -> &[u8]
    ensures lines { IsTrue (next_is is_line_end bytes.now) → lines_of bytes.now ≡ [] ∷ lines_of result.now }
    ensures shorter { 0 < length bytes.now → length result.now < length bytes.now }
{
    match bytes {
        [b'\r', b'\n', rest @ ..] | [_, rest @ ..] => rest,
        [] => bytes,
    }
}

pub(crate) fn lines<'a>(alloc: Global, text: &'a [u8]) -> Result<Vec<&'a [u8]>, Memory>
    ensures { IfOk result (λ lines. map (λ l. l.now) lines.items ≡ lines_of text.now) }
{
    let mut lines = Vec::new(alloc);
    let mut rest = text;
    loop {
        let (line, after) = rest.split_at(line_len(rest));
        lines.push(line)?;
        if after.is_empty() {
            return Ok(lines);
        }
        rest = after_line_end(after);
    }
}

// How much white space a line begins with.
fn indent_of(line: &[u8]) -> usize
    ensures len { result ≡ indent_of line.now }
    ensures within { result ≤ length line.now }
{
    line.iter().take_while(|b| is_white_space(**b)).count()
}

fn is_blank(line: &[u8]) -> bool
    ensures { result ≡ is_blank line.now }
{
    indent_of(line) == line.len()
}

// The least indentation of the lines that are not blank, 0 where there is none.
fn common_indent(lines: &[&[u8]]) -> usize
    ensures { result ≡ unwrap_or (common_indent (map (λ l. l.now) lines.now)) 0 }
{
    let mut least = None;
    for line in lines {
        if !is_blank(line) {
            let indent = indent_of(line);
            least = Some(least.map_or(indent, |n: usize| n.min(indent)));
        }
    }
    least.unwrap_or(0)
}

pub(crate) fn dedented<'a>(alloc: Global, lines: &[&'a [u8]]) -> Result<Vec<&'a [u8]>, Memory>
    ensures { IfOk result (λ out. map (λ l. l.now) out.items ≡ dedented (map (λ l. l.now) lines.now)) }
{
    let mut out = Vec::new(alloc);
    if let Some((first, others)) = lines.split_first() {
        out.push(*first)?;
        let indent = common_indent(others);
        for line in others {
            out.push(&line[indent.min(line.len())..])?;
        }
    }
    Ok(out)
}

// How many blank lines stand in front.
fn blank_front(lines: &[&[u8]]) -> usize
    ensures len { result ≡ prefix_len (λ l. is_blank l.now) lines.now }
    ensures within { result ≤ length lines.now }
{
    lines.iter().take_while(|line| is_blank(line)).count()
}

// How many blank lines stand at the end.
fn blank_back(lines: &[&[u8]]) -> usize
    ensures len { result ≡ suffix_len (λ l. is_blank l.now) lines.now }
    ensures within { result ≤ length lines.now }
{
    lines.iter().rev().take_while(|line| is_blank(line)).count()
}

pub(crate) fn without_blank_front<'a, 'b>(lines: &'b [&'a [u8]]) -> &'b [&'a [u8]]
    ensures { map (λ l. l.now) result.now ≡ without_blank_front (map (λ l. l.now) lines.now) }
{
    &lines[blank_front(lines)..]
}

pub(crate) fn without_blank_back<'a, 'b>(lines: &'b [&'a [u8]]) -> &'b [&'a [u8]]
    ensures { map (λ l. l.now) result.now ≡ without_blank_back (map (λ l. l.now) lines.now) }
{
    &lines[..lines.len() - blank_back(lines)]
}

// The lines with a line feed between each two.
pub(crate) fn joined(alloc: Global, lines: &[&[u8]]) -> Result<Vec<u8>, Memory>
    ensures { IfOk result (λ out. out.items ≡ join_with_byte 10 (map (λ l. l.now) lines.now)) }
{
    let mut out = Vec::new(alloc);
    if let Some((first, others)) = lines.split_first() {
        out.extend_from_slice(first)?;
        for line in others {
            out.push(b'\n')?;
            out.extend_from_slice(line)?;
        }
    }
    Ok(out)
}
