//! The most rows of a list by a role's own entry.
ghost use Rattle.std.specs.Prelude.{◌≡◌};
ghost use Rattle.hq_model.specs.Meta.{perm_view, tracked_view};
ghost use Rattle.hq_model.specs.Permission.{own_permission, told_permission};
ghost use Rattle.hq_model_limits.specs.Limits.{limit_under, rows_of};

use crate::named::has_named_of;
use hq_base::Txt;
use hq_model::{Perm, Tracked};

/// How many rows a list may have.
#[derive(Clone, Copy)]
pub struct Limit {
    /// At most so many; None where there is no limit.
    pub rows: Option<u64>,
}

// What an entry allows, where a column that it has may stand in a schema.
fn told_limit(tracked: &Tracked, perm: &Perm) -> Option<Limit>
    ensures { rows_of result ≡ limit_under (told_permission (tracked_view tracked.now) (perm_view perm.now)) }
{
    if has_named_of(tracked, &perm.cols) {
        Some(Limit { rows: perm.limit })
    } else {
        None
    }
}

/// That of a role's own entry.
pub fn own_limit(tracked: &Tracked, name: &Txt) -> Option<Limit>
    ensures { rows_of result ≡ limit_under (own_permission (tracked_view tracked.now) name.now) }
{
    for perm in tracked.perms.as_slice() {
        if perm.role == *name {
            return told_limit(tracked, perm);
        }
    }
    None
}
