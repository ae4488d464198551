ghost use Rattle.std.specs.Prelude.{◌≡◌, filter, find, option_copied, option_map, bytes_eq, IfOk, ◌==◌};
ghost use Rattle.std.specs.List.{list_any};
ghost use Rattle.hq_model.specs.Meta.{perm_view, tracked_view, meta_view, tracked_table};
ghost use Rattle.hq_model.specs.Permission.{named_columns, admin_permission, told_permission, own_permission, or_inherited, set_of, permission_in, permission};
ghost use Rattle.hq_model.specs.PermView.{permission_view};

use crate::inherited::inherited_view;
use crate::{
    Bexp, ColId, ColList, InheritedList, Meta, Perm, PermList, PermView, Role, TableId, Tracked,
    TrackedList, has_column, is_free_name,
};
use hq_base::{List, Memory, Txt};
use std::alloc::Global;

/// The columns whose GraphQL name may stand in a schema.
pub fn named_columns(alloc: Global, tracked: &Tracked) -> Result<ColList, Memory>
    ensures { IfOk result (λ cols. cols ≡ named_columns (tracked_view tracked.now)) }
{
    let names = tracked.column_names.as_slice();
    let mut cols = List::new(alloc);
    for (at, name) in names.iter().enumerate() {
        if is_free_name(name) {
            cols.push(ColId::new(at))?;
        }
    }
    Ok(cols)
}

// Those of the columns that a permission lists.
fn told_columns(alloc: Global, named: &ColList, told: &ColList) -> Result<ColList, Memory>
    ensures { IfOk result (λ cols. cols ≡ filter (λ c. list_any (λ d. d == c) told.now) named.now) }
{
    let mut cols = List::new(alloc);
    for col in named.as_slice() {
        if has_column(told.as_slice(), *col) {
            cols.push(*col)?;
        }
    }
    Ok(cols)
}

fn admin_view(alloc: Global, tracked: &Tracked) -> Result<Option<PermView>, Memory>
    ensures { IfOk result (λ view. option_map permission_view view ≡ admin_permission (tracked_view tracked.now)) }
{
    let cols = named_columns(alloc, tracked)?;
    if cols.len() == 0 {
        return Ok(None);
    }
    Ok(Some(PermView {
        cols,
        filter: Bexp::True,
        limit: None,
        aggregations: true,
        masks: Vec::new(alloc),
    }))
}

fn told_view(alloc: Global, tracked: &Tracked, perm: &Perm) -> Result<Option<PermView>, Memory>
    ensures { IfOk result (λ view. option_map permission_view view ≡ told_permission (tracked_view tracked.now) (perm_view perm.now)) }
{
    let named = named_columns(alloc, tracked)?;
    let cols = told_columns(alloc, &named, &perm.cols)?;
    if cols.len() == 0 {
        return Ok(None);
    }
    Ok(Some(PermView {
        cols,
        filter: perm.filter.copy(alloc)?,
        limit: perm.limit,
        aggregations: perm.aggregations,
        masks: Vec::new(alloc),
    }))
}

// The permission of the role of this name.
fn perm_named<'a>(perms: &'a PermList, name: &Txt) -> Option<&'a Perm>
    ensures { option_copied result ≡ find (λ p. bytes_eq p.role name.now) perms.now }
{
    perms.as_slice().iter().find(|perm| perm.role == *name)
}

fn perm_of<'a>(tracked: &'a Tracked, name: &Txt) -> Option<&'a Perm>
    ensures { option_map (λ p. perm_view p.now) result ≡ find (λ p. bytes_eq p.role name.now) (tracked_view tracked.now).perms }
{
    perm_named(&tracked.perms, name)
}

/// What a role's own entry permits of a table.
pub fn own_view(alloc: Global, tracked: &Tracked, name: &Txt) -> Result<Option<PermView>, Memory>
    ensures { IfOk result (λ view. option_map permission_view view ≡ own_permission (tracked_view tracked.now) name.now) }
{
    match perm_of(tracked, name) {
        Some(perm) => told_view(alloc, tracked, perm),
        None => Ok(None),
    }
}

// What a role of this name may see: what its own entry permits, and else what the roles of its set permit together.
fn named_view(
    alloc: Global,
    tracked: &Tracked,
    inherited: &InheritedList,
    name: &Txt,
) -> Result<Option<PermView>, Memory>
    ensures { IfOk result (λ view. option_map permission_view view ≡ or_inherited (own_permission (tracked_view tracked.now) name.now) (tracked_view tracked.now) (set_of inherited.now name.now)) }
{
    match own_view(alloc, tracked, name)? {
        Some(view) => Ok(Some(view)),
        None => inherited_view(alloc, tracked, inherited, name),
    }
}

fn view_in(
    alloc: Global,
    tracked: &Tracked,
    inherited: &InheritedList,
    role: &Role,
) -> Result<Option<PermView>, Memory>
    ensures { IfOk result (λ view. option_map permission_view view ≡ permission_in role.now inherited.now (tracked_view tracked.now)) }
{
    match role {
        Role::Admin => admin_view(alloc, tracked),
        Role::Named(name) => named_view(alloc, tracked, inherited, name),
    }
}

// The first entry of a table.
fn tracked_at(all: &TrackedList, t: TableId) -> Option<&Tracked>
    ensures { option_copied result ≡ find (λ k. k.table == t) all.now }
{
    all.as_slice()
        .iter()
        .find(|tracked| tracked.table.at() == t.at())
}

impl Meta {
    /// The entry of a table, where it is tracked.
    pub fn tracked_table(&self, t: TableId) -> Option<&Tracked>
        ensures { option_map (λ k. tracked_view k.now) result ≡ tracked_table (meta_view self.now) t }
    {
        tracked_at(&self.tracked, t)
    }

    /// What a role may see of a table (Hasura, select permissions): `admin` all columns with a GraphQL name and all rows,
    /// another role what its select permission says; an inherited role without one what the roles of its set see together.
    /// None where the table is not tracked, the role has no permission on it, or no permitted column has a GraphQL name.
    pub fn perm(&self, alloc: Global, role: &Role, t: TableId) -> Result<Option<PermView>, Memory>
        ensures { IfOk result (λ view. option_map permission_view view ≡ permission role.now (meta_view self.now) t) }
    {
        match self.tracked_table(t) {
            Some(tracked) => view_in(alloc, tracked, &self.inherited, role),
            None => Ok(None),
        }
    }
}
