//! What a session is granted of each table: its role's permission, with filter and masks bound.
ghost use Rattle.std.specs.Prelude.{◌≡◌, IfOk, map, option_map};
ghost use Rattle.hq_base.specs.Due.{Gives};
ghost use Rattle.hq_model.specs.Bexp.{bexp_view};
ghost use Rattle.hq_model.specs.Binding.{bound_masks, bound_permission};
ghost use Rattle.hq_model.specs.Grants.{grant_of, grants_of};
ghost use Rattle.hq_model.specs.Meta.{meta_view};
ghost use Rattle.hq_model.specs.Permission.{role_of};
ghost use Rattle.hq_model.specs.PermView.{mask_view, permission_view};
ghost use Rattle.hq_model.specs.Schema.{no_table};
ghost use Rattle.hq_model.specs.Described.{scope_schema};
ghost use Rattle.hq_model.specs.declared.bind.BindRefusal.TheVariants as refusal;
ghost use Rattle.hq_request_build.specs.Bound.{mask_due};

use hq_base::Memory;
use hq_model::{Bexp, BindRefusal, Described, Mask, MaskList, PermView, Role, Session, TableId};
use hq_model_binding::bind;
use std::alloc::Global;

fn bound_mask(
    alloc: Global,
    scope: &Described<'_>,
    session: &Session,
    t: TableId,
    mask: &Mask,
) -> Result<Mask, BindRefusal>
    ensures { Gives mask_view refusal.Memory (mask_due (mask_view mask.now) (scope_schema scope.now) session.now.vars t) result }
{
    let shown = bind(alloc, &mask.shown, session, scope.catalog, scope.meta, t)?;
    Ok(Mask {
        col: mask.col,
        shown,
    })
}

fn bound_masks(
    alloc: Global,
    scope: &Described<'_>,
    session: &Session,
    t: TableId,
    masks: &[Mask],
) -> Result<MaskList, BindRefusal>
    ensures { Gives (λ ms. map mask_view ms.items) refusal.Memory (bound_masks (map mask_view masks.now) (scope_schema scope.now) session.now.vars t) result }
{
    let mut bound = Vec::new(alloc);
    for mask in masks {
        let one = bound_mask(alloc, scope, session, t, mask)?;
        bound.push(one)?;
    }
    Ok(bound)
}

// A permission with this filter and these masks in place of its own.
fn with_bound(view: PermView, filter: Bexp, masks: MaskList) -> PermView
    ensures { permission_view result ≡ record (permission_view view) { filter = bexp_view filter; masks = map mask_view masks.items } }
{
    let PermView {
        cols,
        limit,
        aggregations,
        ..
    } = view;
    PermView {
        cols,
        filter,
        limit,
        aggregations,
        masks,
    }
}

// A permission on a table, its filter bound and then its masks.
fn bound_view(
    alloc: Global,
    scope: &Described<'_>,
    session: &Session,
    t: TableId,
    view: PermView,
) -> Result<PermView, BindRefusal>
    ensures { Gives permission_view refusal.Memory (bound_permission (permission_view view) (scope_schema scope.now) session.now.vars t) result }
{
    let filter = bind(alloc, &view.filter, session, scope.catalog, scope.meta, t)?;
    let masks = bound_masks(alloc, scope, session, t, &view.masks)?;
    Ok(with_bound(view, filter, masks))
}

// What the role is granted of a table: its permission, where there is one that binds.
fn granted(
    alloc: Global,
    scope: &Described<'_>,
    session: &Session,
    role: &Role,
    t: TableId,
) -> Result<Option<PermView>, Memory>
    requires { role.now ≡ role_of session.now.role }
    ensures { IfOk result (λ view. option_map permission_view view ≡ grant_of session.now (meta_view scope.now.meta.now) (scope_schema scope.now) t no_table) }
{
    match scope.meta.perm(alloc, role, t)? {
        None => Ok(None),
        Some(view) => match bound_view(alloc, scope, session, t, view) {
            Ok(bound) => Ok(Some(bound)),
            Err(BindRefusal::Memory) => Err(Memory),
            Err(BindRefusal::NoVariable { .. }) => Ok(None),
            Err(BindRefusal::BadVariable { .. }) => Ok(None),
        },
    }
}

// What a session of this role is granted of each table of the catalog, in order.
fn views_of_role(
    alloc: Global,
    scope: &Described<'_>,
    session: &Session,
    role: &Role,
) -> Result<Vec<Option<PermView>>, Memory>
    requires { role.now ≡ role_of session.now.role }
    ensures { IfOk result (λ views. map (option_map permission_view) views.items ≡ grants_of session.now scope.now.catalog.now.tables (meta_view scope.now.meta.now)) }
{
    let mut views = Vec::new(alloc);
    for t in 0..scope.catalog.tables.len() {
        let view = granted(alloc, scope, session, role, TableId::new(t))?;
        views.push(view)?;
    }
    Ok(views)
}

/// What a session is granted of each table of the catalog, in order.
#[inline(never)]
pub(crate) fn granted_views(
    alloc: Global,
    scope: &Described<'_>,
    session: &Session,
) -> Result<Vec<Option<PermView>>, Memory>
    ensures { IfOk result (λ views. map (option_map permission_view) views.items ≡ grants_of session.now scope.now.catalog.now.tables (meta_view scope.now.meta.now)) }
{
    let role = Role::of(alloc, session)?;
    views_of_role(alloc, scope, session, &role)
}
