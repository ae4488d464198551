//! The relationships that a copy keeps.
ghost use Rattle.std.specs.Prelude.{◌≡◌, ◌++◌, ◌∷◌, [], cond, IfOk, OnOk, is_some};
ghost use Rattle.hq_copy_definition.specs.Sources.{kept_relationships};
ghost use Rattle.hq_model.specs.Meta.{meta_view};
ghost use Rattle.hq_model.specs.Permission.{permission};
ghost use Rattle.hq_model.specs.Schema.{rels_of, table};
ghost use Rattle.hq_model.specs.Described.{scope_schema};

use hq_base::Memory;
use hq_model::{Described, Meta, Rel, RelId, Role, TableId};
use std::alloc::Global;

// The relationships of a table's entry, none where it is not tracked.
fn tracked_rels(meta: &Meta, t: TableId) -> &[Rel]
    ensures { result.now ≡ rels_of (meta_view meta.now) t }
{
    match meta.tracked_table(t) {
        Some(tracked) => tracked.rels.as_slice(),
        None => &[],
    }
}

// The relationships of a table, none where it is not in the catalog.
fn relationships<'a>(scope: &Described<'a>, t: TableId) -> &'a [Rel]
    ensures { result.now ≡ (table (scope_schema scope.now) t).rels }
{
    match scope.catalog.table(t) {
        Some(_) => tracked_rels(scope.meta, t),
        None => &[],
    }
}

// Whether the role may see something of a table.
fn is_seen(alloc: Global, scope: &Described<'_>, role: &Role, t: TableId) -> Result<bool, Memory>
    ensures { IfOk result (λ b. b ≡ is_some (permission role.now (meta_view scope.now.meta.now) t)) }
{
    let permission = scope.meta.perm(alloc, role, t)?;
    Ok(permission.is_some())
}

// The place of a relationship, behind others, where it is kept.
fn push_kept(at: usize, is_kept: bool, kept: &mut Vec<RelId>) -> Result<(), Memory>
    ensures { OnOk result (kept.new.items ≡ kept.old.items ++ cond is_kept (at ∷ []) []) }
{
    if is_kept {
        kept.push(RelId::new(at))?;
    }
    Ok(())
}

/// The relationships of a table that are kept: those to tables that the role may see something of.
pub fn kept_relationships(
    alloc: Global,
    scope: &Described<'_>,
    role: &Role,
    t: TableId,
) -> Result<Vec<RelId>, Memory>
    ensures { IfOk result (λ kept. kept.items ≡ kept_relationships role.now (meta_view scope.now.meta.now) (scope_schema scope.now) t) }
{
    let rels = relationships(scope, t);
    let mut kept = Vec::new(alloc);
    for (at, rel) in rels.iter().enumerate() {
        let is_kept = is_seen(alloc, scope, role, rel.remote)?;
        push_kept(at, is_kept, &mut kept)?;
    }
    Ok(kept)
}
