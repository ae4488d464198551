//! What a request is granted of the tables that it touches.
ghost use Rattle.std.specs.Prelude.{◌≡◌, ◌++◌, [], IfOk, OnOk, map, option_map};
ghost use Rattle.hq_model.specs.Meta.{meta_view};
ghost use Rattle.hq_model.specs.Schema.{schema_of};
ghost use Rattle.hq_model.specs.Permission.{option_list};
ghost use Rattle.hq_request_tree.specs.Request.{ask_view, bound_view, grants_in};
ghost use Rattle.hq_translation.specs.GrantedTables.{granted_of};
ghost use Rattle.hq_compile_tables.specs.Contexts.{granted_in};
ghost use Rattle.hq_model_limits.specs.Limits.{rows_of};
ghost use Rattle.hq_compile.specs.GrantedTrees.{granted_view, granted_with, granted_for, granted_all};
ghost use Rattle.hq_model.specs.PermView.{mask_view};

use hq_base::{List, Memory};
use hq_compile_tables::{Granted, GrantedList};
use hq_model::{Catalog, Mask, MaskList, Meta, Role};
use hq_model_limits::{Limit, limit_of};
use hq_request_tree::{Ask, Bound};
use std::alloc::Global;

fn copied_mask(alloc: Global, mask: &Mask) -> Result<Mask, Memory>
    ensures { IfOk result (λ copy. mask_view copy ≡ mask_view mask.now) }
{
    let shown = mask.shown.copy(alloc)?;
    Ok(Mask {
        col: mask.col,
        shown,
    })
}

fn copied_masks(alloc: Global, masks: &[Mask]) -> Result<MaskList, Memory>
    ensures { IfOk result (λ copies. map mask_view copies.items ≡ map mask_view masks.now) }
{
    let mut copies = Vec::new(alloc);
    for mask in masks {
        copies.push(copied_mask(alloc, mask)?)?;
    }
    Ok(copies)
}

// What is granted of a touched table under this limit, where the role has a permission on it.
fn with_limit(alloc: Global, bound: &Bound, limit: Option<Limit>) -> Result<Option<Granted>, Memory>
    ensures { IfOk result (λ g. option_map granted_view g ≡ option_map (granted_with (bound_view bound.now)) (rows_of limit)) }
{
    match limit {
        None => Ok(None),
        Some(limit) => {
            let filter = bound.filter.copy(alloc)?;
            let masks = copied_masks(alloc, &bound.masks)?;
            Ok(Some(Granted {
                table: bound.table,
                filter,
                limit: limit.rows,
                masks,
            }))
        }
    }
}

// What is granted of a touched table; nothing of one beyond the catalog, or where the role has no permission.
fn granted_for(
    alloc: Global,
    role: &Role,
    catalog: &Catalog,
    meta: &Meta,
    bound: &Bound,
) -> Result<Option<Granted>, Memory>
    ensures { IfOk result (λ g. option_map granted_view g ≡ granted_for role.now catalog.now.tables (meta_view meta.now) (bound_view bound.now)) }
{
    match catalog.table(bound.table) {
        None => Ok(None),
        Some(_) => with_limit(alloc, bound, limit_of(meta, role, bound.table)),
    }
}

fn push_granted(granted: &mut GrantedList, one: Option<Granted>) -> Result<(), Memory>
    ensures { OnOk result (map granted_view granted.new ≡ map granted_view granted.old ++ option_list (option_map granted_view one)) }
{
    match one {
        None => Ok(()),
        Some(one) => {
            granted.push(one)?;
            Ok(())
        }
    }
}

fn granted_all(
    alloc: Global,
    role: &Role,
    catalog: &Catalog,
    meta: &Meta,
    bounds: &[Bound],
) -> Result<GrantedList, Memory>
    ensures { IfOk result (λ gs. map granted_view gs ≡ granted_all role.now catalog.now.tables (meta_view meta.now) (map bound_view bounds.now)) }
{
    let mut granted = List::new(alloc);
    for bound in bounds {
        let one = granted_for(alloc, role, catalog, meta, bound)?;
        push_granted(&mut granted, one)?;
    }
    Ok(granted)
}

/// What a request is granted.
pub(crate) fn granted(
    alloc: Global,
    ask: &Ask,
    catalog: &Catalog,
    meta: &Meta,
) -> Result<GrantedList, Memory>
    ensures { IfOk result (λ gs. granted_in gs ≡ granted_of (grants_in (ask_view ask.now) (meta_view meta.now) (schema_of catalog.now.tables (meta_view meta.now)))) }
{
    granted_all(alloc, &ask.role, catalog, meta, ask.bound.as_slice())
}
