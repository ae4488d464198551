//! Places of a pattern between two %.
ghost use Rattle.std.specs.Prelude.{◌≡◌, None, Some, false, MatchOption};
ghost use Rattle.hq_base.specs.Patterns.{meets, some_end};
ghost use Rattle.hq_like.specs.Reading.{read};
ghost use Rattle.hq_like.specs.Places.{after_places, fits, places_view};

use crate::reading::{at_end, behind, number, read_first};

/// What stands at a place: any character, or this one as it is compared.
#[derive(Clone, Copy)]
pub(crate) enum Place {
    One,
    This(char),
}

impl Place {
    fn fits(self, letter: char) -> bool
        ensures { result ≡ fits self letter }
    {
        match self {
            Place::One => true,
            Place::This(own) => own == letter,
        }
    }
}

/// What is behind these places, where a text begins with what they ask for.
pub(crate) fn after<'t>(places: &[Place], fold: bool, text: &'t str) -> Option<&'t str>
    ensures { MatchOption result (after_places places.now (read fold text.entry.now) ≡ None) (λ rest. after_places places.now (read fold text.entry.now) ≡ Some (read fold rest.now)) }
{
    let mut rest = text;
    for place in places {
        let Some((letter, later)) = read_first(fold, rest) else {
            return None;
        };
        if !place.fits(letter) {
            return None;
        }
        rest = later;
    }
    Some(rest)
}

/// Whether a text ends with what these places ask for.
pub(crate) fn ends(places: &[Place], fold: bool, text: &str) -> bool
    ensures { result ≡ some_end (meets false (places_view places.now)) (read fold text.now) }
{
    let all = number(text);
    if all < places.len() {
        return false;
    }
    match after(places, fold, behind(text, all - places.len())) {
        Some(rest) => at_end(fold, rest),
        None => false,
    }
}
