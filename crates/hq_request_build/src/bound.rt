//! Permissions, bound for a session.
ghost use Rattle.std.specs.Prelude.{map, length};
ghost use Rattle.hq_base.specs.Due.{Gives, mapped};
ghost use Rattle.hq_model.specs.Binding.{bound_masks, bound_permission};
ghost use Rattle.hq_model.specs.Meta.{meta_view};
ghost use Rattle.hq_model.specs.PermView.{mask_view, permission_view};
ghost use Rattle.hq_model.specs.Described.{scope_schema};
ghost use Rattle.hq_model.specs.declared.bind.BindRefusal.TheVariants as refusal;
ghost use Rattle.hq_request_tree.specs.Fields.{fields_of, keyed_field_view};
ghost use Rattle.hq_request_tree.specs.Request.{bound_view};
ghost use Rattle.hq_request_tree.specs.Touched.{touched};
ghost use Rattle.hq_request_build.specs.Bound.{mask_due, of_table, bound_due, bounds_due};

use crate::fields::touched_tables;
use hq_base::List;
use hq_model::{Bexp, BindRefusal, Described, Mask, MaskList, PermView, Role, Session, TableId};
use hq_model_binding::bind;
use hq_request_tree::{AskFields, Bound, BoundList};
use std::alloc::Global;

fn bound_mask(
    alloc: Global,
    scope: &Described<'_>,
    session: &Session,
    t: TableId,
    mask: &Mask,
) -> Result<Mask, BindRefusal>
    ensures { Gives mask_view refusal.Memory (mask_due (mask_view mask.now) (scope_schema scope.now) session.now.vars t) result }
{
    let shown = bind(alloc, &mask.shown, session, scope.catalog, scope.meta, t)?;
    Ok(Mask {
        col: mask.col,
        shown,
    })
}

fn bound_masks(
    alloc: Global,
    scope: &Described<'_>,
    session: &Session,
    t: TableId,
    masks: &[Mask],
) -> Result<MaskList, BindRefusal>
    ensures { Gives (λ ms. map mask_view ms.items) refusal.Memory (bound_masks (map mask_view masks.now) (scope_schema scope.now) session.now.vars t) result }
{
    let mut bound = Vec::new(alloc);
    for mask in masks {
        let one = bound_mask(alloc, scope, session, t, mask)?;
        bound.push(one)?;
    }
    Ok(bound)
}

// A permission on a table: its filter, and then its masks.
fn bound_permission(
    alloc: Global,
    scope: &Described<'_>,
    session: &Session,
    t: TableId,
    view: &PermView,
) -> Result<Bound, BindRefusal>
    ensures { Gives bound_view refusal.Memory (mapped (of_table t) (bound_permission (permission_view view.now) (scope_schema scope.now) session.now.vars t)) result }
{
    let filter = bind(alloc, &view.filter, session, scope.catalog, scope.meta, t)?;
    let masks = bound_masks(alloc, scope, session, t, &view.masks)?;
    Ok(Bound {
        table: t,
        filter,
        masks,
    })
}

// A table with the role's permission on it; where there is none, with a filter that is never true.
fn bound_table(
    alloc: Global,
    role: &Role,
    scope: &Described<'_>,
    session: &Session,
    t: TableId,
) -> Result<Bound, BindRefusal>
    ensures { Gives bound_view refusal.Memory (bound_due role.now (meta_view scope.now.meta.now) (scope_schema scope.now) session.now.vars t) result }
{
    match scope.meta.perm(alloc, role, t)? {
        Some(view) => bound_permission(alloc, scope, session, t, &view),
        None => Ok(Bound {
            table: t,
            filter: Bexp::Not(Box::new(alloc, Bexp::True)?),
            masks: Vec::new(alloc),
        }),
    }
}

fn bound_each(
    alloc: Global,
    role: &Role,
    scope: &Described<'_>,
    session: &Session,
    tables: &[usize],
) -> Result<BoundList, BindRefusal>
    ensures { Gives (map bound_view) refusal.Memory (bounds_due role.now (meta_view scope.now.meta.now) (scope_schema scope.now) session.now.vars tables.now) result }
{
    let mut bound = List::new(alloc);
    for t in tables {
        let table = bound_table(alloc, role, scope, session, TableId::new(*t))?;
        bound.push(table)?;
    }
    Ok(bound)
}

/// The tables that root fields touch, each with the bound filter and masks of the role's permission; or the fault of the first
/// operand that has no value, of the first such table.
pub fn bound_tables(
    alloc: Global,
    role: &Role,
    scope: &Described<'_>,
    session: &Session,
    fields: &AskFields,
) -> Result<BoundList, BindRefusal>
    ensures { Gives (map bound_view) refusal.Memory
        (bounds_due role.now (meta_view scope.now.meta.now) (scope_schema scope.now) session.now.vars
        (touched (fields_of (map keyed_field_view fields.now.items)) (scope_schema scope.now) (length scope.now.catalog.now.tables)))
        result }
{
    let tables = touched_tables(alloc, scope, fields)?;
    bound_each(alloc, role, scope, session, tables.as_slice())
}
