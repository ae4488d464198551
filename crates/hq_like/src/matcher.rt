//! Patterns that are read once.
ghost use Rattle.std.specs.Prelude.{◌≡◌, true, IfOk};
ghost use Rattle.hq_base.specs.Patterns.{like};
ghost use Rattle.hq_like.specs.Matchers.{Fits};

use crate::parts::Parts;
use crate::signs::signs_of;
use hq_base::{Memory, Txt};
use std::alloc::Global;
use std::marker::Model;

/// A text as a pattern of LIKE, or of ILIKE under `fold`, read once for many texts. Contracts see the text and `fold`.
#[derive(Drop)]
pub struct Matcher {
    pattern: Txt,
    fold: bool,
    parts: Option<Parts>,
}

impl Model for Matcher {
    ghost use Rattle.std.specs.Prelude.{ℕ, List, Bool};
    ghost use Rattle.hq_like.specs.Matchers.{Fits};

    ghost Value = { List ℕ × Bool };

    ghost view = { λ m. (m.pattern, m.fold) };

    ghost invariant = { λ m. Fits m.pattern m.fold m.parts };
}

// What a pattern asks for; None where it ends in an escape.
fn parts_of(alloc: Global, pattern: &Txt, fold: bool) -> Result<Option<Parts>, Memory>
    ensures { IfOk result (λ parts. Fits pattern.now fold parts) }
{
    match signs_of(alloc, fold, pattern.as_str())? {
        None => Ok(None),
        Some(signs) => Ok(Some(Parts::of(alloc, &signs)?)),
    }
}

impl Matcher {
    /// The matcher of this pattern.
    pub fn new(alloc: Global, pattern: &Txt, fold: bool) -> Result<Matcher, Memory>
        ensures { IfOk result (λ m. m ≡ (pattern.now, fold)) }
    {
        let parts = parts_of(alloc, pattern, fold)?;
        let pattern = pattern.copy(alloc)?;
        Ok(Matcher {
            pattern,
            fold,
            parts,
        })
    }

    /// Whether it is of this pattern.
    pub fn is_of(&self, pattern: &Txt, fold: bool) -> bool
        ensures { result ≡ true → self.now ≡ (pattern.now, fold) }
    {
        self.fold == fold && self.pattern == *pattern
    }

    /// Whether the text is like the pattern. None is like a text that ends in an escape.
    pub fn matches(&self, text: &Txt) -> bool
        ensures { result ≡ like self.now.1 self.now.0 text.now }
    {
        match &self.parts {
            None => false,
            Some(parts) => parts.fit(self.fold, text.as_str()),
        }
    }
}
