//! What a session is granted of the tables that are copied: their permissions with filter and masks bound.
ghost use Rattle.std.specs.Prelude.{◌≡◌, map};
ghost use Rattle.hq_base.specs.Due.{Gives};
ghost use Rattle.hq_request_build.specs.Bound.{mask_due};
ghost use Rattle.hq_copy_definition.specs.Refusals.{not_bound};
ghost use Rattle.hq_copy_definition.specs.declared.refusal.CopyRefusal.TheVariants as refusal;
ghost use Rattle.hq_copy_tables.specs.Views.{source_view};
ghost use Rattle.hq_copy.specs.Granted.{granted_due};
ghost use Rattle.hq_model.specs.Binding.{bound_masks, bound_permission};
ghost use Rattle.hq_model.specs.PermView.{mask_view, permission_view};
ghost use Rattle.hq_model.specs.Described.{scope_schema};
ghost use Rattle.hq_model.specs.declared.bind.BindRefusal.TheVariants as binding;

use hq_base::List;
use hq_copy_definition::CopyRefusal;
use hq_copy_tables::Source;
use hq_model::{BindRefusal, Described, Mask, MaskList, PermView, Session, TableId, TryCopy};
use hq_model_binding::bind;
use std::alloc::Global;

fn bound_mask(
    alloc: Global,
    scope: &Described<'_>,
    session: &Session,
    t: TableId,
    mask: &Mask,
) -> Result<Mask, BindRefusal>
    ensures { Gives mask_view binding.Memory (mask_due (mask_view mask.now) (scope_schema scope.now) session.now.vars t) result }
{
    let shown = bind(alloc, &mask.shown, session, scope.catalog, scope.meta, t)?;
    Ok(Mask {
        col: mask.col,
        shown,
    })
}

fn bound_masks(
    alloc: Global,
    scope: &Described<'_>,
    session: &Session,
    t: TableId,
    masks: &[Mask],
) -> Result<MaskList, BindRefusal>
    ensures { Gives (λ ms. map mask_view ms.items) binding.Memory (bound_masks (map mask_view masks.now) (scope_schema scope.now) session.now.vars t) result }
{
    let mut bound = Vec::new(alloc);
    for mask in masks {
        let one = bound_mask(alloc, scope, session, t, mask)?;
        bound.push(one)?;
    }
    Ok(bound)
}

// A permission on a table, its filter bound and then its masks.
fn bound_permission(
    alloc: Global,
    scope: &Described<'_>,
    session: &Session,
    t: TableId,
    permission: &PermView,
) -> Result<PermView, BindRefusal>
    ensures { Gives permission_view binding.Memory (bound_permission (permission_view permission.now) (scope_schema scope.now) session.now.vars t) result }
{
    let filter = bind(
        alloc,
        &permission.filter,
        session,
        scope.catalog,
        scope.meta,
        t,
    )?;
    let masks = bound_masks(alloc, scope, session, t, &permission.masks)?;
    Ok(PermView {
        cols: permission.cols.try_copy(alloc)?,
        filter,
        limit: permission.limit,
        aggregations: permission.aggregations,
        masks,
    })
}

// Why a filter that does not bind makes no copy.
fn not_bound(refusal: BindRefusal) -> CopyRefusal
    ensures { result ≡ not_bound refusal }
{
    match refusal {
        BindRefusal::NoVariable { name } => CopyRefusal::NoVariable { name },
        BindRefusal::BadVariable { name, want } => CopyRefusal::BadVariable { name, want },
        BindRefusal::Memory => CopyRefusal::Memory,
    }
}

/// What a session is granted of each of these tables, or the first operand in read order that has no value.
pub fn granted(
    alloc: Global,
    scope: &Described<'_>,
    session: &Session,
    sources: &[Source<'_>],
) -> Result<List<PermView>, CopyRefusal>
    ensures { Gives (map permission_view) refusal.Memory (granted_due (scope_schema scope.now) session.now.vars (map source_view sources.now)) result }
{
    let mut all = List::new(alloc);
    for source in sources {
        match bound_permission(
            alloc,
            scope,
            session,
            source.entry.table,
            &source.permission,
        ) {
            Ok(permission) => all.push(permission)?,
            Err(refusal) => return Err(not_bound(refusal)),
        }
    }
    Ok(all)
}
