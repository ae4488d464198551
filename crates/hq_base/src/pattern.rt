ghost use Rattle.std.specs.Prelude.{◌≡◌, ◌∷◌, ◌≤◌, [], length, is_ok, IfOk, MatchOption, IfSome, option_map, ok_or};
ghost use Rattle.std.specs.Str.{chars};
ghost use Rattle.hq_base.specs.Due.{Gives};
ghost use Rattle.hq_base.specs.declared.pattern.PatternRefusal.TheVariants as refusal;
ghost use Rattle.hq_base.specs.Patterns.{steps_of, alike, meets, some_end, like, pattern_of};
ghost use Rattle.hq_base.specs.Fronts.{fits, front, reach};

use crate::{List, Memory, Txt};
use std::alloc::Global;
use std::marker::Model;
use thiserror::Error;

/// A pattern of LIKE and ILIKE, which does not end in an escape. Contracts see its text.
#[derive(Drop)]
pub struct Pattern {
    text: Txt,
    steps: List<Step>,
}

// What a pattern asks for next.
#[derive(Clone, Copy, PartialEq, Eq)]
enum Step {
    Any,
    One,
    This(char),
}

impl Model for Pattern {
    ghost use Rattle.std.specs.Prelude.{◌≡◌, ℕ, List, Some};
    ghost use Rattle.std.specs.Str.{chars};
    ghost use Rattle.hq_base.specs.Patterns.{steps_of};

    ghost Value = { List ℕ };

    ghost view = { λ p. p.text };

    ghost invariant = { λ p. steps_of (chars p.text) ≡ Some p.steps };
}

/// Why a text is no pattern.
#[derive(Clone, Copy, Debug, PartialEq, Eq, Error)]
pub enum PatternRefusal {
    /// A last `\` has no character behind it.
    #[error("the pattern ends in an escape")]
    EndsInEscape,
    #[error("out of memory")]
    Memory,
}

impl From<Memory> for PatternRefusal {
    ghost from_gives = { λ _ e. e ≡ refusal.Memory };

    fn from(_: Memory) -> Self {
        PatternRefusal::Memory
    }
}

impl Pattern {
    /// The pattern that this text spells: EndsInEscape where, read from the left with each `\` taking the next
    /// character, a last `\` is left alone.
    pub fn new(alloc: Global, text: &Txt) -> Result<Pattern, PatternRefusal>
        ensures { Gives (λ p. p) PatternRefusal.Memory (pattern_of text.now) result }
    {
        let steps = steps_of(alloc, text.as_str())?;
        let text = text.copy(alloc)?;
        Ok(Pattern { text, steps })
    }

    /// The text that spells the pattern.
    pub fn text(&self) -> &Txt
        ensures { result.now ≡ self.now }
    {
        &self.text
    }

    /// Whether the text is like the pattern: `%` stands for any characters, `_` for one, and `\x` for `x`. Under `fold`
    /// the letters A to Z equal a to z.
    pub fn matches(&self, text: &Txt, fold: bool) -> bool
        ensures { result ≡ like fold self.now text.now }
    {
        meets(fold, self.steps.as_slice(), text.as_str())
    }
}

// What the pattern asks for, step by step.
fn steps_of(alloc: Global, text: &str) -> Result<List<Step>, PatternRefusal>
    ensures { Gives (λ steps. steps) PatternRefusal.Memory (ok_or (steps_of (chars text.now)) PatternRefusal.EndsInEscape) result }
{
    let mut steps = List::new(alloc);
    let mut left = text;
    while let Some((c, rest)) = split_first(left) {
        let (step, rest) = step_at(c, rest).ok_or(PatternRefusal::EndsInEscape)?;
        steps.push(step)?;
        left = rest;
    }
    Ok(steps)
}

// What the pattern asks for where it goes on with this character; None where that is an escape left alone.
fn step_at(c: char, rest: &str) -> Option<(Step, &str)>
    ensures step { MatchOption result (steps_of (c ∷ chars rest.now) ≡ None) (λ p. steps_of (c ∷ chars rest.now) ≡ option_map (λ steps. p.0 ∷ steps) (steps_of (chars p.1.now))) }
    ensures shorter { IfSome result (λ p. length (chars p.1.now) ≤ length (chars rest.now)) }
{
    match c {
        '%' => Some((Step::Any, rest)),
        '_' => Some((Step::One, rest)),
        '\\' => match split_first(rest) {
            Some((escaped, rest)) => Some((Step::This(escaped), rest)),
            None => None,
        },
        _ => Some((Step::This(c), rest)),
    }
}

// The first character of a text, and what is behind it.
fn split_first(text: &str) -> Option<(char, &str)>
    ensures { MatchOption result (chars text.now ≡ []) (λ p. chars text.now ≡ p.0 ∷ chars p.1.now) }
{
    let mut rest = text.chars();
    match rest.next() {
        Some(first) => Some((first, rest.as_str())),
        None => None,
    }
}

// Two characters are equal, or under fold equal but for the case of the letters A to Z.
fn alike(fold: bool, c: char, d: char) -> bool
    ensures { result ≡ alike fold c d }
{
    if fold {
        c.to_ascii_lowercase() == d.to_ascii_lowercase()
    } else {
        c == d
    }
}

impl Step {
    // The step stands for the character, perhaps among others.
    fn fits(self, fold: bool, c: char) -> bool
        ensures { result ≡ fits fold self c }
    {
        match self {
            Step::Any | Step::One => true,
            Step::This(d) => alike(fold, d, c),
        }
    }
}

// How far a text goes with the steps before the first %: not at all, or to both ends, or to the steps behind the %
// and the rest of the text.
#[derive(Drop)]
enum Reach<'s, 't> {
    Misfit,
    Whole,
    UpToAny(&'s [Step], &'t str),
}

// How far the text goes with the steps.
fn front<'s, 't>(fold: bool, mut steps: &'s [Step], mut text: &'t str) -> Reach<'s, 't>
    ensures { reach result ≡ front fold steps.entry.now (chars text.entry.now) }
{
    while let [step, later @ ..] = steps {
        if *step == Step::Any {
            return Reach::UpToAny(later, text);
        }
        match split_first(text) {
            Some((c, rest)) if step.fits(fold, c) => {
                steps = later;
                text = rest;
            }
            _ => return Reach::Misfit,
        }
    }
    match split_first(text) {
        None => Reach::Whole,
        Some(_) => Reach::Misfit,
    }
}

// Whether the text is what the steps ask for.
fn meets(fold: bool, steps: &[Step], text: &str) -> bool
    ensures { result ≡ meets fold steps.now (chars text.now) }
{
    match front(fold, steps, text) {
        Reach::Misfit => false,
        Reach::Whole => true,
        Reach::UpToAny(later, rest) => finds(fold, later, rest),
    }
}

// Whether some end of the text is what the steps ask for. The part between two % is taken where it first fits: the
// next % stands for whatever lies further on.
fn finds(fold: bool, mut steps: &[Step], mut text: &str) -> bool
    ensures { result ≡ some_end (meets fold steps.entry.now) (chars text.entry.now) }
{
    loop {
        match front(fold, steps, text) {
            Reach::Misfit => match split_first(text) {
                Some((_, rest)) => text = rest,
                None => return false,
            },
            Reach::Whole => return true,
            Reach::UpToAny(later, rest) => {
                steps = later;
                text = rest;
            }
        }
    }
}

/// Whether a text is a pattern: it does not end in an escape.
pub fn is_pattern(alloc: Global, text: &Txt) -> Result<bool, Memory>
    ensures { IfOk result (λ b. b ≡ is_ok (pattern_of text.now)) }
{
    match Pattern::new(alloc, text) {
        Ok(_) => Ok(true),
        Err(PatternRefusal::EndsInEscape) => Ok(false),
        Err(PatternRefusal::Memory) => Err(Memory),
    }
}
