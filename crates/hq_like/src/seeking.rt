//! Searches for the part of a pattern between two %.
ghost use Rattle.std.specs.Prelude.{◌≡◌, ◌<◌, ◌≤◌, drop, length, IfOk};
ghost use Rattle.hq_like.specs.Backs.{letters_then};
ghost use Rattle.hq_like.specs.Reading.{read};
ghost use Rattle.hq_like.specs.Places.{places_view};
ghost use Rattle.hq_like.specs.Segments.{Seeks, Sees, IsSegment, rest_read, tail_then, with_segment};

use crate::backs::{advanced, backs_of};
use crate::places::{Place, after};
use crate::reading::read_first;
use crate::segment::Segment;
use hq_base::Memory;
use std::alloc::Global;

// What is found where so many first letters are read: the segment is met before this rest, or so many first letters are still read.
#[derive(Drop)]
enum Seen<'t> {
    Met(&'t str),
    Reading(usize),
}

// The letters before the first _.
fn letters_of(alloc: Global, places: &[Place]) -> Result<Vec<char>, Memory>
    ensures within { IfOk result (λ letters. length letters.items ≤ length places.now) }
    ensures front { IfOk result (λ letters. places_view places.now ≡ letters_then letters.items (places_view (drop (length letters.items) places.now))) }
{
    let mut letters = Vec::new(alloc);
    for place in places {
        match place {
            Place::This(letter) => letters.push(*letter)?,
            Place::One => return Ok(letters),
        }
    }
    Ok(letters)
}

// What follows these places where a text first meets them, each of its ends tried.
fn behind_places<'t>(places: &[Place], fold: bool, text: &'t str) -> Option<&'t str>
    ensures { Seeks (tail_then places.now) (read fold text.entry.now) (rest_read fold result) }
{
    let mut left = text;
    'ends: loop {
        match after(places, fold, left) {
            Some(rest) => return Some(rest),
            None => match read_first(fold, left) {
                Some((_, later)) => left = later,
                None => return None,
            },
        }
    }
}

impl Segment {
    /// The segment of these places.
    pub(crate) fn of(alloc: Global, places: &[Place]) -> Result<Segment, Memory>
        ensures { IfOk result (λ segment. IsSegment places.now segment) }
    {
        let letters = letters_of(alloc, places)?;
        let tail = Vec::from_slice(alloc, &places[letters.len()..])?;
        let backs = backs_of(alloc, &letters)?;
        Ok(Segment {
            letters,
            backs,
            tail,
        })
    }

    // Whether the places behind the letters are met where all letters are read; how many letters are still read where not.
    fn seen<'t>(&self, state: usize, fold: bool, left: &'t str) -> Seen<'t>
        requires some { 0 < length self.now.letters.items }
        requires within { state ≤ length self.now.letters.items }
        ensures { Sees self.now state (read fold left.entry.now) fold result }
    {
        if state < self.letters.len() {
            return Seen::Reading(state);
        }
        match after(&self.tail, fold, left) {
            Some(rest) => Seen::Met(rest),
            None => Seen::Reading(self.backs[state]),
        }
    }

    // What follows the segment where a text first meets it, each character of the text read once.
    fn behind_letters<'t>(&self, fold: bool, text: &'t str) -> Option<&'t str>
        requires { 0 < length self.now.letters.items }
        ensures { Seeks (with_segment self.now) (read fold text.entry.now) (rest_read fold result) }
    {
        let mut state = 0;
        let mut left = text;
        'letters: loop {
            let reading = match self.seen(state, fold, left) {
                Seen::Met(rest) => return Some(rest),
                Seen::Reading(reading) => reading,
            };
            match read_first(fold, left) {
                Some((letter, later)) => {
                    state = advanced(&self.letters, &self.backs, reading, letter);
                    left = later;
                }
                None => return None,
            }
        }
    }

    /// What follows the segment where a text first meets it.
    pub(crate) fn behind<'t>(&self, fold: bool, text: &'t str) -> Option<&'t str>
        ensures { Seeks (with_segment self.now) (read fold text.entry.now) (rest_read fold result) }
    {
        if self.letters.is_empty() {
            behind_places(&self.tail, fold, text)
        } else {
            self.behind_letters(fold, text)
        }
    }
}
