//! The most rows of a list by what several roles may see together.
ghost use Rattle.std.specs.Prelude.{◌≡◌, find, option_copied, bytes_eq};
ghost use Rattle.hq_model.specs.Meta.{tracked_view};
ghost use Rattle.hq_model.specs.Permission.{combined, larger, permissions_of, set_of};
ghost use Rattle.hq_model_limits.specs.Limits.{limit_under, limits_of, rows_of, together};

use crate::own::{Limit, own_limit};
use hq_base::Txt;
use hq_model::{Inherited, InheritedList, Tracked};

// The larger of two limits; none where one is none.
fn larger(one: Option<u64>, other: Option<u64>) -> Option<u64>
    ensures { result ≡ larger one other }
{
    match (one, other) {
        (Some(one), Some(other)) => Some(one.max(other)),
        _ => None,
    }
}

// The limit of two together, of which one may see nothing.
fn together(one: Option<Limit>, other: Option<Limit>) -> Option<Limit>
    ensures { rows_of result ≡ together (rows_of one) (rows_of other) }
{
    match (one, other) {
        (None, other) => other,
        (Some(one), None) => Some(one),
        (Some(one), Some(other)) => Some(Limit {
            rows: larger(one.rows, other.rows),
        }),
    }
}

// The limit of the roles of these names.
fn all_limit(tracked: &Tracked, names: &[Txt]) -> Option<Limit>
    ensures { rows_of result ≡ limits_of (tracked_view tracked.now) names.now }
{
    let mut limit = None;
    for name in names {
        limit = together(limit, own_limit(tracked, name));
    }
    limit
}

// The entry of an inherited role.
fn entry_of<'a>(inherited: &'a InheritedList, name: &Txt) -> Option<&'a Inherited>
    ensures { option_copied result ≡ find (λ i. bytes_eq i.role name.now) inherited.now }
{
    inherited
        .as_slice()
        .iter()
        .find(|entry| entry.role == *name)
}

/// The limit of an inherited role by the roles of its set.
pub fn inherited_limit(tracked: &Tracked, inherited: &InheritedList, name: &Txt) -> Option<Limit>
    ensures { rows_of result ≡ limit_under (combined (tracked_view tracked.now) (permissions_of (tracked_view tracked.now) (set_of inherited.now name.now))) }
{
    match entry_of(inherited, name) {
        Some(entry) => all_limit(tracked, entry.set.as_slice()),
        None => None,
    }
}
