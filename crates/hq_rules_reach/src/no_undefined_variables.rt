//! 5.8.3 All Variable Uses Defined: a use that an operation reaching it does not define.
ghost use Rattle.std.specs.Prelude.{◌≡◌, map, true};
ghost use Rattle.hq_gql_nodes.specs.Least.{earlier, least_of};
ghost use Rattle.hq_rules_reach.specs.Fit.{IsAtMost};
ghost use Rattle.hq_rules_reach.specs.Summaries.{Ascends, EachAscends};
ghost use Rattle.hq_rules_reach.specs.Uses.{number_view, uses_at, numbers_view};
ghost use Rattle.hq_rules_reach.specs.Variables.{numbered_place, undefined_use};

use crate::uses::Use;
use crate::variable_places::variable_at;
use hq_gql_nodes::{at_if, earlier};

fn undefined_use(places: &[Option<usize>], found: &Use<'_>) -> Option<u64>
    ensures { result ≡ undefined_use (numbered_place places.now) (number_view found.now) }
{
    at_if(variable_at(places, found.number).is_none(), found.at)
}

// Whether a place is not before the least one so far.
fn is_behind(least: Option<u64>, at: u64) -> bool
    ensures { result ≡ true → IsAtMost least at }
{
    match least {
        Some(place) => place <= at,
        None => false,
    }
}

// The lesser of the least place so far and that among some uses. Where they ascend, those behind the least are not looked at.
fn least_undefined(
    places: &[Option<usize>],
    uses: &[Use<'_>],
    ascending: bool,
    mut least: Option<u64>,
) -> Option<u64>
    requires { ascending ≡ true → Ascends 0 uses.now }
    ensures { result ≡ earlier least (least_of (undefined_use (numbered_place places.now)) (map number_view uses.now)) }
{
    for found in uses {
        if ascending && is_behind(least, found.at) {
            return least;
        }
        least = earlier(least, undefined_use(places, found));
    }
    least
}

// The same among the uses in the definition at a place.
fn undefined_at(
    places: &[Option<usize>],
    all: &[Vec<Use<'_>>],
    ascending: bool,
    at: usize,
    least: Option<u64>,
) -> Option<u64>
    requires { ascending ≡ true → EachAscends all.now }
    ensures { result ≡ earlier least (least_of (undefined_use (numbered_place places.now)) (uses_at (numbers_view all.now) at)) }
{
    match all.get(at) {
        Some(uses) => least_undefined(places, uses, ascending, least),
        None => least,
    }
}

/// The lesser of the least place so far and that of a use in these definitions whose variable `places` lacks, by the numbers of the
/// names.
pub fn undefined_in(
    places: &[Option<usize>],
    all: &[Vec<Use<'_>>],
    ascending: bool,
    definitions: &[usize],
    mut least: Option<u64>,
) -> Option<u64>
    requires { ascending ≡ true → EachAscends all.now }
    ensures { result ≡ earlier least (least_of (λ j. least_of (undefined_use (numbered_place places.now)) (uses_at (numbers_view all.now) j)) definitions.now) }
{
    for at in definitions {
        least = undefined_at(places, all, ascending, *at, least);
    }
    least
}
