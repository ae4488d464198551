//! Texts, bodies, the order of values, and patterns.

use hq_base::{Json, Pattern, Txt, Val, compare};
use hq_cases_file::{Case, Stop, Words, push_json, value};
use std::alloc::Global;
use std::cmp::Ordering;

/// A copy of the text that bytes are, or their refusal.
pub fn tell_text(alloc: Global, case: &Case, words: &mut Words) -> Result<(), Stop> {
    let bytes = case.bytes(alloc, "in")?;
    push_text(alloc, bytes.as_slice(), words)
}

fn push_text(alloc: Global, bytes: &[u8], words: &mut Words) -> Result<(), Stop> {
    match Txt::of(alloc, bytes) {
        Ok(text) => words.push(text.copy(alloc)?.as_str()),
        Err(refusal) => words.push_debug(&refusal),
    }
    Ok(())
}

/// The compact text of a copy of what a body reads as, or its refusal.
pub fn tell_body(alloc: Global, case: &Case, words: &mut Words) -> Result<(), Stop> {
    let bytes = case.bytes(alloc, "in")?;
    push_body(alloc, bytes.as_slice(), words)
}

fn push_body(alloc: Global, bytes: &[u8], words: &mut Words) -> Result<(), Stop> {
    match Json::from_body(alloc, bytes) {
        Ok(json) => push_copy(alloc, &json, words)?,
        Err(refusal) => words.push_debug(&refusal),
    }
    Ok(())
}

fn push_copy(alloc: Global, json: &Json, words: &mut Words) -> Result<(), Stop> {
    push_json(alloc, &json.copy(alloc)?, words);
    Ok(())
}

/// How the value `left` stands to each of the values `right`.
pub fn tell_order(alloc: Global, case: &Case, words: &mut Words) -> Result<(), Stop> {
    let right = case.list("right")?;
    let left = value(alloc, case.get("left")?)?;
    push_order_of_copy(alloc, &left, right, words)
}

fn push_order_of_copy(
    alloc: Global,
    left: &Val,
    right: &[Json],
    words: &mut Words,
) -> Result<(), Stop> {
    let left = left.copy(alloc)?;
    push_order(alloc, &left, right, words)
}

fn push_order(alloc: Global, left: &Val, right: &[Json], words: &mut Words) -> Result<(), Stop> {
    for json in right {
        words.push(sign_between(alloc, left, json)?);
    }
    Ok(())
}

fn sign_between(alloc: Global, left: &Val, json: &Json) -> Result<&'static str, Stop> {
    let right = value(alloc, json)?;
    Ok(sign(compare(left, &right)))
}

fn sign(order: Option<Ordering>) -> &'static str {
    match order {
        Some(Ordering::Less) => " <",
        Some(Ordering::Equal) => " =",
        Some(Ordering::Greater) => " >",
        None => " none",
    }
}

/// Whether a text is like a pattern, as it stands and under fold, or the refusal of the pattern.
pub fn tell_pattern(alloc: Global, case: &Case, words: &mut Words) -> Result<(), Stop> {
    let subject = case.text(alloc, "in")?;
    let pattern = case.text(alloc, "pattern")?;
    push_pattern(alloc, &pattern, &subject, words);
    Ok(())
}

fn push_pattern(alloc: Global, pattern: &Txt, subject: &Txt, words: &mut Words) {
    match Pattern::new(alloc, pattern) {
        Ok(pattern) => push_matches(&pattern, subject, words),
        Err(refusal) => words.push_debug(&refusal),
    }
}

fn push_matches(pattern: &Pattern, subject: &Txt, words: &mut Words) {
    words.push_shown(&pattern.matches(subject, false));
    words.push(", folded ");
    words.push_shown(&pattern.matches(subject, true));
}
