//! A pattern cut at its %.
ghost use Rattle.std.specs.Prelude.{◌≡◌, ◌<◌, false, length, IfOk, IfSome};
ghost use Rattle.hq_base.specs.Patterns.{meets, some_end};
ghost use Rattle.hq_like.specs.Parts.{cut_view, joined, parts_view};
ghost use Rattle.hq_like.specs.Places.{places_view};
ghost use Rattle.hq_like.specs.Reading.{read};
ghost use Rattle.hq_like.specs.Signs.{signs_view};

use crate::places::{Place, after, ends};
use crate::reading::at_end;
use crate::segment::Segment;
use crate::signs::Sign;
use hq_base::Memory;
use std::alloc::Global;

/// A pattern cut at its %: what a text begins with, the segments between two %, and what it ends with. Without a % the first part
/// is all.
#[derive(Drop)]
pub(crate) struct Parts {
    front: Vec<Place>,
    middle: Vec<Segment>,
    last: Option<Vec<Place>>,
}

// What stands before a %, and what behind it, if there is one.
#[derive(Drop)]
struct Cut<'s> {
    places: Vec<Place>,
    later: Option<&'s [Sign]>,
}

// Cuts signs at the first %.
fn before_any<'s>(alloc: Global, signs: &'s [Sign]) -> Result<Cut<'s>, Memory>
    ensures same { IfOk result (λ cut. signs_view signs.entry.now ≡ cut_view cut) }
    ensures shorter { IfOk result (λ cut. IfSome cut.later (λ later. length later.now < length signs.entry.now)) }
{
    let mut places = Vec::new(alloc);
    let mut left = signs;
    'signs: while let [sign, later @ ..] = left {
        match sign {
            Sign::Any => {
                return Ok(Cut {
                    places,
                    later: Some(later),
                });
            }
            Sign::One => places.push(Place::One)?,
            Sign::This(letter) => places.push(Place::This(*letter))?,
        }
        left = later;
    }
    Ok(Cut {
        places,
        later: None,
    })
}

// The segments of signs that stand behind a %, and what stands behind the last %.
fn segments(alloc: Global, signs: &[Sign]) -> Result<(Vec<Segment>, Vec<Place>), Memory>
    ensures { IfOk result (λ parts. signs_view signs.entry.now ≡ joined parts.0.items (places_view parts.1.items)) }
{
    let mut middle = Vec::new(alloc);
    let mut left = signs;
    'segments: loop {
        let cut = before_any(alloc, left)?;
        match cut.later {
            None => return Ok((middle, cut.places)),
            Some(later) => {
                middle.push(Segment::of(alloc, &cut.places)?)?;
                left = later;
            }
        }
    }
}

// Whether some end of a text is the segments, each behind a %, and then these places.
fn found(middle: &[Segment], last: &[Place], fold: bool, text: &str) -> bool
    ensures { result ≡ some_end (meets false (joined middle.now (places_view last.now))) (read fold text.entry.now) }
{
    let mut left = text;
    for segment in middle {
        match segment.behind(fold, left) {
            Some(rest) => left = rest,
            None => return false,
        }
    }
    ends(last, fold, left)
}

impl Parts {
    /// The parts of these signs.
    pub(crate) fn of(alloc: Global, signs: &[Sign]) -> Result<Parts, Memory>
        ensures { IfOk result (λ parts. signs_view signs.now ≡ parts_view parts) }
    {
        let cut = before_any(alloc, signs)?;
        let front = cut.places;
        match cut.later {
            None => Ok(Parts {
                front,
                middle: Vec::new(alloc),
                last: None,
            }),
            Some(later) => {
                let (middle, last) = segments(alloc, later)?;
                Ok(Parts {
                    front,
                    middle,
                    last: Some(last),
                })
            }
        }
    }

    /// Whether a text is what the parts ask for.
    pub(crate) fn fit(&self, fold: bool, text: &str) -> bool
        ensures { result ≡ meets false (parts_view self.now) (read fold text.now) }
    {
        let Some(rest) = after(&self.front, fold, text) else {
            return false;
        };
        match &self.last {
            None => at_end(fold, rest),
            Some(last) => found(&self.middle, last, fold, rest),
        }
    }
}
