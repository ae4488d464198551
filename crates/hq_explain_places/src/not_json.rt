//! Why a text is no JSON of whole numbers and of texts without a zero byte.
ghost use Rattle.std.specs.Prelude.{◌≤◌, length, IfOk};
ghost use Rattle.hq_explain_places.specs.Reasons.{AddsReason, IsReason};

use crate::number::{Odd, first_odd, syntax_error};
use crate::{Words, place_of, put_excerpt};
use hq_base::Memory;
use std::alloc::Global;

// What is said of something odd.
fn odd_reason(odd: Odd) -> &'static str
    ensures { IsReason result.now }
{
    match odd {
        Odd::Fraction => ": a number that is not a whole number of 64 bits\n",
        Odd::ZeroByte => ": a zero byte\n",
    }
}

// The place from which on a text is no such JSON, and what is said of it.
fn reason(alloc: Global, text: &[u8]) -> Result<(usize, &'static str), Memory>
    ensures { IfOk result (λ r. (r.0 ≤ length text.now) × IsReason r.1.now) }
{
    if let Some(at) = syntax_error(alloc, text)? {
        return Ok((at.min(text.len()), ": no JSON from here on\n"));
    }
    match first_odd(text) {
        Some((at, odd)) => Ok((at.min(text.len()), odd_reason(odd))),
        None => Ok((0, ": no JSON that hq reads\n")),
    }
}

/// Adds the place from which a text is no such JSON, and why, and then its line.
pub fn put_not_json(alloc: Global, words: &mut Words, text: &[u8])
    ensures { AddsReason words.old words.new text.now }
{
    match reason(alloc, text) {
        Err(Memory) => words.stop_if(true),
        Ok((at, said)) => {
            words.put_place(place_of(text, at));
            words.put(said);
            put_excerpt(words, text, at);
        }
    }
}
