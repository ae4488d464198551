//! The part of a pattern between two %.
ghost use Rattle.std.specs.Prelude.{◌≡◌, ◌+◌, length, vec_len};
ghost use Rattle.hq_like.specs.Backs.{AreBacks};

use crate::places::Place;

/// The part of a pattern between two %: letters, with how far a search goes back at each number of them, and the places from the
/// first _ on.
#[derive(Drop)]
pub(crate) struct Segment {
    pub(crate) letters: Vec<char>,
    pub(crate) backs: Vec<usize>,
    pub(crate) tail: Vec<Place>,
    ghost right: { AreBacks letters.items backs.items (length letters.items) },
    ghost many: { vec_len backs ≡ length letters.items + 1 },
}
