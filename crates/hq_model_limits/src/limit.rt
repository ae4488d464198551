//! The most rows of a list by a role's permission.
ghost use Rattle.std.specs.Prelude.{◌≡◌};
ghost use Rattle.hq_model.specs.Meta.{meta_view, tracked_view};
ghost use Rattle.hq_model.specs.Permission.{admin_permission, or_inherited, own_permission, permission, permission_in, set_of};
ghost use Rattle.hq_model_limits.specs.Limits.{limit_under, rows_of};

use crate::named::has_named;
use crate::own::{Limit, own_limit};
use crate::set::inherited_limit;
use hq_base::Txt;
use hq_model::{InheritedList, Meta, Role, TableId, Tracked};

// That of admin, which has no limit.
fn admin_limit(tracked: &Tracked) -> Option<Limit>
    ensures { rows_of result ≡ limit_under (admin_permission (tracked_view tracked.now)) }
{
    if has_named(tracked) {
        Some(Limit { rows: None })
    } else {
        None
    }
}

// That of a role of this name: of its own entry, and else of the roles of its set together.
fn named_limit(tracked: &Tracked, inherited: &InheritedList, name: &Txt) -> Option<Limit>
    ensures { rows_of result ≡ limit_under (or_inherited (own_permission (tracked_view tracked.now) name.now) (tracked_view tracked.now) (set_of inherited.now name.now)) }
{
    match own_limit(tracked, name) {
        Some(limit) => Some(limit),
        None => inherited_limit(tracked, inherited, name),
    }
}

fn limit_in(tracked: &Tracked, inherited: &InheritedList, role: &Role) -> Option<Limit>
    ensures { rows_of result ≡ limit_under (permission_in role.now inherited.now (tracked_view tracked.now)) }
{
    match role {
        Role::Admin => admin_limit(tracked),
        Role::Named(name) => named_limit(tracked, inherited, name),
    }
}

/// The limit of `Meta::perm`: how many rows a list of a table may have by what a role may see of it; None where the role sees
/// nothing of it. Takes no memory.
pub fn limit_of(meta: &Meta, role: &Role, t: TableId) -> Option<Limit>
    ensures { rows_of result ≡ limit_under (permission role.now (meta_view meta.now) t) }
{
    match meta.tracked_table(t) {
        Some(tracked) => limit_in(tracked, &meta.inherited, role),
        None => None,
    }
}
