//! What a pattern asks for, sign by sign, of characters as they are compared.
ghost use Rattle.std.specs.Prelude.{◌≡◌, ◌∷◌, ◌≤◌, length, map, MatchOption, IfOk, IfSome, OnOk, option_map};
ghost use Rattle.std.specs.Str.{chars};
ghost use Rattle.hq_base.specs.Patterns.{steps_of};
ghost use Rattle.hq_like.specs.Signs.{MeansLike, Adds, lowered, sign_view};

use crate::reading::{read_letter, split_first};
use hq_base::Memory;
use std::alloc::Global;

/// What a pattern asks for next.
#[derive(Clone, Copy)]
pub(crate) enum Sign {
    Any,
    One,
    This(char),
}

// What the pattern asks for where it goes on with this character; None where that is an escape left alone.
fn sign_at(fold: bool, c: char, rest: &str) -> Option<(Sign, &str)>
    ensures sign { MatchOption result (steps_of (c ∷ chars rest.now) ≡ None)
        (λ p. option_map (map (lowered fold)) (steps_of (c ∷ chars rest.now))
        ≡ option_map (λ steps. sign_view p.0 ∷ steps) (option_map (map (lowered fold)) (steps_of (chars p.1.now)))) }
    ensures shorter { IfSome result (λ p. length (chars p.1.now) ≤ length (chars rest.now)) }
{
    match c {
        '%' => Some((Sign::Any, rest)),
        '_' => Some((Sign::One, rest)),
        '\\' => match split_first(rest) {
            Some((escaped, rest)) => Some((Sign::This(read_letter(fold, escaped)), rest)),
            None => None,
        },
        _ => Some((Sign::This(read_letter(fold, c)), rest)),
    }
}

// Adds a sign, so that no % stands behind a % and no _ behind a %.
fn add(signs: &mut Vec<Sign>, sign: Sign) -> Result<(), Memory>
    ensures { OnOk result (Adds signs.old.items sign signs.new.items) }
{
    let Some(last) = signs.pop() else {
        signs.push(sign)?;
        return Ok(());
    };
    match (last, sign) {
        (Sign::Any, Sign::Any) => signs.push(Sign::Any)?,
        (Sign::Any, Sign::One) => {
            signs.push(Sign::One)?;
            signs.push(Sign::Any)?;
        }
        _ => {
            signs.push(last)?;
            signs.push(sign)?;
        }
    }
    Ok(())
}

/// What a pattern asks for; None where it ends in an escape.
pub(crate) fn signs_of(
    alloc: Global,
    fold: bool,
    pattern: &str,
) -> Result<Option<Vec<Sign>>, Memory>
    ensures { IfOk result (MeansLike fold pattern.now) }
{
    let mut signs = Vec::new(alloc);
    let mut left = pattern;
    while let Some((c, rest)) = split_first(left) {
        let Some((sign, rest)) = sign_at(fold, c, rest) else {
            return Ok(None);
        };
        add(&mut signs, sign)?;
        left = rest;
    }
    Ok(Some(signs))
}
