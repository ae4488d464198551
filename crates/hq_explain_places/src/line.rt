//! The line around a place.
ghost use Rattle.std.specs.Prelude.{◌≡◌};
ghost use Rattle.hq_explain_places.specs.Lines.{length_before, length_behind, line_before, line_behind};

use crate::place::{before, is_line_end};

/// The line that a place stands in: what of it stands before the place, and what stands from there on. Its line end is not of it.
#[derive(Clone, Copy)]
pub struct Line<'a> {
    pub before: &'a [u8],
    pub behind: &'a [u8],
}

// How many bytes stand behind the last line end of these.
fn length_before(front: &[u8]) -> usize
    ensures { result ≡ length_before front.now }
{
    front
        .iter()
        .rev()
        .take_while(|byte| !is_line_end(**byte))
        .count()
}

// How many bytes stand before the first line end of these.
fn length_behind(rest: &[u8]) -> usize
    ensures { result ≡ length_behind rest.now }
{
    rest.iter().take_while(|byte| !is_line_end(**byte)).count()
}

/// The line around the byte at `at`, or around the end of the text.
pub fn line_around(text: &[u8], at: usize) -> Line<'_>
    ensures before { result.before.now ≡ line_before text.now at }
    ensures behind { result.behind.now ≡ line_behind text.now at }
{
    let front = before(text, at);
    let rest = &text[front.len()..];
    Line {
        before: &front[front.len() - length_before(front)..],
        behind: &rest[..length_behind(rest)],
    }
}
