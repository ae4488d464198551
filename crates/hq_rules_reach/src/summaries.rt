//! The uses of variables that the rules need: of those of one name at places that are alike, the first one.
ghost use Rattle.std.specs.Prelude.{◌≡◌, true, map, option_map, IfOk};
ghost use Rattle.std.specs.List.{All};
ghost use Rattle.hq_schema.specs.Schema.{type_ref_view};
ghost use Rattle.hq_gql_nodes.specs.Fragments.{Places};
ghost use Rattle.hq_gql_nodes.specs.Known.{place_view};
ghost use Rattle.hq_rules_reach.specs.Uses.{use_view, IsNumbered};
ghost use Rattle.hq_rules_reach.specs.Summaries.{is_same_type, IsLike, HasLike, IsSummary, Ascends, EachAscends};

use crate::uses::Use;
use hq_base::Memory;
use hq_gql_nodes::ValuePlace;
use hq_schema::TypeRef;
use std::alloc::Global;

fn is_same_type(left: &TypeRef, right: &TypeRef) -> bool
    ensures { result ≡ is_same_type (type_ref_view left.now) (type_ref_view right.now) }
{
    match left {
        TypeRef::Named(l) => match right {
            TypeRef::Named(r) => l.at() == r.at(),
            TypeRef::List(_) | TypeRef::NonNull(_) => false,
        },
        TypeRef::List(l) => match right {
            TypeRef::List(r) => is_same_type(l, r),
            TypeRef::Named(_) | TypeRef::NonNull(_) => false,
        },
        TypeRef::NonNull(l) => match right {
            TypeRef::NonNull(r) => is_same_type(l, r),
            TypeRef::Named(_) | TypeRef::List(_) => false,
        },
    }
}

#[tactic(auto, using(crate::proofs::Summing::same_type))]
fn is_same_place(left: ValuePlace<'_>, right: ValuePlace<'_>) -> bool
    ensures { result ≡ true → place_view left.entry ≡ place_view right.entry }
{
    left.default_false == right.default_false && is_same_type(left.ty, right.ty)
}

fn are_alike(left: Option<ValuePlace<'_>>, right: Option<ValuePlace<'_>>) -> bool
    ensures { result ≡ true → option_map place_view left.entry ≡ option_map place_view right.entry }
{
    match (left, right) {
        (Some(left), Some(right)) => is_same_place(left, right),
        (None, None) => true,
        _ => false,
    }
}

fn is_like(before: &Use<'_>, found: &Use<'_>) -> bool
    ensures { result ≡ true → IsLike before.now found.now }
{
    before.at <= found.at && before.name == found.name && are_alike(before.place, found.place)
}

// Whether one of some uses is like this one. They are those of its number, from `last` on each in front of the one before.
fn has_like(uses: &[Use<'_>], before: &[usize], last: usize, found: &Use<'_>) -> bool
    ensures { result ≡ true → HasLike uses.now found.now }
{
    let mut at = last;
    for _ in 0..uses.len() {
        let Some(like) = uses.get(at) else {
            return false;
        };
        if is_like(like, found) {
            return true;
        }
        match before.get(at) {
            Some(next) => at = *next,
            None => return false,
        }
    }
    false
}

// Where the last of some uses with this number stands, or a place beyond them.
fn last_of(uses: &[Use<'_>], lasts: &[usize], number: usize) -> usize {
    match lasts.get(number) {
        Some(last) if *last < uses.len() && uses[*last].number == number => *last,
        _ => usize::MAX,
    }
}

// Notes where the last use with a number stands. Numbers come in their order.
fn note_last(lasts: &mut Vec<usize>, number: usize, last: usize) -> Result<(), Memory> {
    if number < lasts.len() {
        lasts[number] = last;
    } else {
        lasts.push(last)?;
    }
    Ok(())
}

/// The uses of a definition that the rules need. `lasts` is at hand for all definitions, whatever it holds.
pub fn summary<'a>(
    alloc: Global,
    lasts: &mut Vec<usize>,
    uses: &[Use<'a>],
) -> Result<Vec<Use<'a>>, Memory>
    ensures summary { IfOk result (λ kept. IsSummary (map use_view kept.items) (map use_view uses.now)) }
    ensures numbered { IfOk result (λ kept. (number_of : Places) → All (IsNumbered number_of) uses.now → All (IsNumbered number_of) kept.items) }
{
    let mut kept = Vec::new(alloc);
    let mut before = Vec::new(alloc);
    for found in uses {
        let last = last_of(&kept, lasts, found.number);
        if !has_like(&kept, &before, last, found) {
            note_last(&mut *lasts, found.number, kept.len())?;
            before.push(last)?;
            kept.push(*found)?;
        }
    }
    Ok(kept)
}

fn ascends(uses: &[Use<'_>]) -> bool
    ensures { result ≡ true → Ascends 0 uses.now }
{
    let mut last = 0;
    for found in uses {
        if found.at < last {
            return false;
        }
        last = found.at;
    }
    true
}

/// Whether the uses of each definition stand in the order of the text.
pub fn each_ascends(all: &[Vec<Use<'_>>]) -> bool
    ensures { result ≡ true → EachAscends all.now }
{
    for uses in all {
        if !ascends(uses) {
            return false;
        }
    }
    true
}
