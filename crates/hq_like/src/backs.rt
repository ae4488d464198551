//! How far back a search goes where the next letter differs (Knuth, Morris and Pratt, Fast pattern matching in strings).
ghost use Rattle.std.specs.Prelude.{◌≡◌, ◌++◌, ◌∷◌, ◌+◌, ◌<◌, ◌≤◌, [], length, take, vec_len, IfOk};
ghost use Rattle.hq_like.specs.Backs.{AreBacks, Reads};

use hq_base::Memory;
use std::alloc::Global;

/// How many letters are read behind one more: so many first letters as the text then ends with, at most one more than before.
pub(crate) fn advanced(letters: &[char], backs: &[usize], read: usize, letter: char) -> usize
    requires inside { read < length letters.now }
    requires backs { AreBacks letters.now backs.now read }
    requires many { read < length backs.now }
    ensures within { result ≤ read + 1 }
    ensures reads { Reads letters.now (take read letters.now ++ letter ∷ []) result }
{
    let mut state = read;
    while letters[state] != letter {
        if state == 0 {
            return 0;
        }
        state = backs[state];
    }
    state + 1
}

/// For each number of first letters, how many of them are still read where what stands behind them does not fit.
pub(crate) fn backs_of(alloc: Global, letters: &[char]) -> Result<Vec<usize>, Memory>
    ensures backs { IfOk result (λ backs. AreBacks letters.now backs.items (length letters.now)) }
    ensures many { IfOk result (λ backs. vec_len backs ≡ length letters.now + 1) }
{
    let mut backs = Vec::new(alloc);
    backs.push(0)?;
    if letters.is_empty() {
        return Ok(backs);
    }
    backs.push(0)?;
    let mut state = 0;
    for at in 1..letters.len() {
        state = advanced(letters, &backs, state, letters[at]);
        backs.push(state)?;
    }
    Ok(backs)
}
