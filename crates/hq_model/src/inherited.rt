//! What roles permit together.
ghost use Rattle.std.specs.Prelude.{◌≡◌, ◌++◌, IfOk, OnOk, find, map, option_copied, option_map, bytes_eq};
ghost use Rattle.std.specs.List.{list_any, list_all};
ghost use Rattle.hq_base.specs.Lists.{firsts};
ghost use Rattle.hq_model.specs.Bexp.{bexp_view};
ghost use Rattle.hq_model.specs.Meta.{tracked_view};
ghost use Rattle.hq_model.specs.Permission.{columns_of_any, combined, either, filters_for, filters_of, larger, largest, limit_of, mask_for, masks_for, option_list, permissions_of, permits, set_of, some_aggregate, with_name};
ghost use Rattle.hq_model.specs.PermView.{mask_view, permission_view};

use crate::permission::{named_columns, own_view};
use crate::{
    Bexp, BexpList, ColId, ColList, Inherited, InheritedList, Mask, MaskList, PermView, Tracked,
    TxtList, has_column,
};
use hq_base::{List, Memory, Txt};
use std::alloc::Global;

/// What several roles permit of a table, each by itself.
type ViewList = Vec<PermView>;

// Whether a name is among these.
fn has_name(names: &[Txt], name: &Txt) -> bool
    ensures { result ≡ list_any (λ n. bytes_eq n name.now) names.now }
{
    names.iter().any(|one| *one == *name)
}

fn push_name(alloc: Global, names: &mut TxtList, name: &Txt) -> Result<(), Memory>
    ensures { OnOk result (names.new ≡ with_name names.old name.now) }
{
    if !has_name(names.as_slice(), name) {
        names.push(name.copy(alloc)?)?;
    }
    Ok(())
}

// Names, each once, where it comes first.
fn different_names(alloc: Global, names: &TxtList) -> Result<TxtList, Memory>
    ensures { IfOk result (λ ns. ns ≡ firsts bytes_eq names.now) }
{
    let mut different = List::new(alloc);
    for name in names.as_slice() {
        push_name(alloc, &mut different, name)?;
    }
    Ok(different)
}

// The entry of an inherited role.
fn entry_of<'a>(inherited: &'a InheritedList, name: &Txt) -> Option<&'a Inherited>
    ensures { option_copied result ≡ find (λ i. bytes_eq i.role name.now) inherited.now }
{
    inherited
        .as_slice()
        .iter()
        .find(|entry| entry.role == *name)
}

// The set of an inherited role, each name once.
fn set_of(alloc: Global, inherited: &InheritedList, name: &Txt) -> Result<TxtList, Memory>
    ensures { IfOk result (λ set. set ≡ set_of inherited.now name.now) }
{
    match entry_of(inherited, name) {
        Some(entry) => different_names(alloc, &entry.set),
        None => Ok(List::new(alloc)),
    }
}

fn push_view(views: &mut ViewList, view: Option<PermView>) -> Result<(), Memory>
    ensures { OnOk result (map permission_view views.new.items ≡ map permission_view views.old.items ++ option_list (option_map permission_view view)) }
{
    match view {
        Some(view) => {
            views.push(view)?;
            Ok(())
        }
        None => Ok(()),
    }
}

// What each of the roles permits, in their order.
fn views_of(alloc: Global, tracked: &Tracked, set: &TxtList) -> Result<ViewList, Memory>
    ensures { IfOk result (λ views. map permission_view views.items ≡ permissions_of (tracked_view tracked.now) set.now) }
{
    let mut views = Vec::new(alloc);
    for name in set.as_slice() {
        push_view(&mut views, own_view(alloc, tracked, name)?)?;
    }
    Ok(views)
}

// Whether a permission has a column.
fn permits(view: &PermView, col: ColId) -> bool
    ensures { result ≡ permits col (permission_view view.now) }
{
    has_column(view.cols.as_slice(), col)
}

// Whether some permission has a column.
fn some_permits(views: &[PermView], col: ColId) -> bool
    ensures { result ≡ list_any (permits col) (map permission_view views.now) }
{
    for view in views {
        if permits(view, col) {
            return true;
        }
    }
    false
}

// Whether each permission has a column.
fn all_permit(views: &[PermView], col: ColId) -> bool
    ensures { result ≡ list_all (permits col) (map permission_view views.now) }
{
    for view in views {
        if !permits(view, col) {
            return false;
        }
    }
    true
}

// The columns that some permission has.
fn columns_of_any(alloc: Global, tracked: &Tracked, views: &[PermView]) -> Result<ColList, Memory>
    ensures { IfOk result (λ cols. cols ≡ columns_of_any (tracked_view tracked.now) (map permission_view views.now)) }
{
    let named = named_columns(alloc, tracked)?;
    let mut cols = List::new(alloc);
    for col in named.as_slice() {
        if some_permits(views, *col) {
            cols.push(*col)?;
        }
    }
    Ok(cols)
}

// One of these, or the only one.
fn either(bexps: BexpList) -> Bexp
    ensures { bexp_view result ≡ either (map bexp_view bexps.items) }
{
    let mut bexps = bexps;
    if bexps.len() != 1 {
        return Bexp::Or(bexps);
    }
    match bexps.pop() {
        Some(bexp) => bexp,
        None => Bexp::Or(bexps),
    }
}

// The filters of the permissions.
fn filters_of(alloc: Global, views: &[PermView]) -> Result<BexpList, Memory>
    ensures { IfOk result (λ bs. map bexp_view bs.items ≡ filters_of (map permission_view views.now)) }
{
    let mut filters = Vec::new(alloc);
    for view in views {
        filters.push(view.filter.copy(alloc)?)?;
    }
    Ok(filters)
}

// The filters of those that have a column.
fn filters_for(alloc: Global, views: &[PermView], col: ColId) -> Result<BexpList, Memory>
    ensures { IfOk result (λ bs. map bexp_view bs.items ≡ filters_for col (map permission_view views.now)) }
{
    let mut filters = Vec::new(alloc);
    for view in views {
        if permits(view, col) {
            filters.push(view.filter.copy(alloc)?)?;
        }
    }
    Ok(filters)
}

// The larger of two limits; none where one has none.
fn larger(one: Option<u64>, other: Option<u64>) -> Option<u64>
    ensures { result ≡ larger one other }
{
    match (one, other) {
        (Some(one), Some(other)) => Some(one.max(other)),
        _ => None,
    }
}

// The largest of a limit and those of permissions.
fn largest(limit: Option<u64>, views: &[PermView]) -> Option<u64>
    ensures { result ≡ largest limit (map permission_view views.now) }
{
    let mut largest = limit;
    for view in views {
        largest = larger(largest, view.limit);
    }
    largest
}

fn limit_of(views: &[PermView]) -> Option<u64>
    ensures { result ≡ limit_of (map permission_view views.now) }
{
    match views {
        [first, others @ ..] => largest(first.limit, others),
        [] => None,
    }
}

// Whether some permission allows aggregates.
fn some_aggregate(views: &[PermView]) -> bool
    ensures { result ≡ some_aggregate (map permission_view views.now) }
{
    for view in views {
        if view.aggregations {
            return true;
        }
    }
    false
}

// A column that not each permission has is masked.
fn push_mask(
    alloc: Global,
    masks: &mut MaskList,
    views: &[PermView],
    col: ColId,
) -> Result<(), Memory>
    ensures { OnOk result (map mask_view masks.new.items ≡ map mask_view masks.old.items ++ mask_for (map permission_view views.now) col) }
{
    if !all_permit(views, col) {
        let shown = either(filters_for(alloc, views, col)?);
        masks.push(Mask { col, shown })?;
    }
    Ok(())
}

fn masks_for(alloc: Global, views: &[PermView], cols: &ColList) -> Result<MaskList, Memory>
    ensures { IfOk result (λ ms. map mask_view ms.items ≡ masks_for (map permission_view views.now) cols.now) }
{
    let mut masks = Vec::new(alloc);
    for col in cols.as_slice() {
        push_mask(alloc, &mut masks, views, *col)?;
    }
    Ok(masks)
}

// What permissions permit together.
fn combined(
    alloc: Global,
    tracked: &Tracked,
    views: &[PermView],
) -> Result<Option<PermView>, Memory>
    ensures { IfOk result (λ view. option_map permission_view view ≡ combined (tracked_view tracked.now) (map permission_view views.now)) }
{
    let cols = columns_of_any(alloc, tracked, views)?;
    if cols.len() == 0 {
        return Ok(None);
    }
    let masks = masks_for(alloc, views, &cols)?;
    Ok(Some(PermView {
        cols,
        filter: either(filters_of(alloc, views)?),
        limit: limit_of(views),
        aggregations: some_aggregate(views),
        masks,
    }))
}

/// What an inherited role may see of a table by the roles of its set; nothing where this is no inherited role.
pub fn inherited_view(
    alloc: Global,
    tracked: &Tracked,
    inherited: &InheritedList,
    name: &Txt,
) -> Result<Option<PermView>, Memory>
    ensures { IfOk result (λ view. option_map permission_view view ≡ combined (tracked_view tracked.now) (permissions_of (tracked_view tracked.now) (set_of inherited.now name.now))) }
{
    let set = set_of(alloc, inherited, name)?;
    let views = views_of(alloc, tracked, &set)?;
    combined(alloc, tracked, &views)
}
