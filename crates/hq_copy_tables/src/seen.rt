//! The tables that a copy holds.
ghost use Rattle.std.specs.Prelude.{◌≡◌, ◌++◌, [], IfOk, OnOk, map, option_map};
ghost use Rattle.hq_copy_definition.specs.Sources.{has_mask, keeps_key, sources, with_source};
ghost use Rattle.hq_copy_tables.specs.Views.{source_view};
ghost use Rattle.hq_model.specs.Meta.{meta_view, tracked_view};
ghost use Rattle.hq_model.specs.PermView.{permission_view};

use hq_base::Memory;
use hq_model::{ColId, Meta, PermView, Role, Tracked, has_column};
use std::alloc::Global;

/// A table of the copy: a tracked table of the original, and what the role may see of it.
#[derive(Drop)]
pub struct Source<'a> {
    pub entry: &'a Tracked,
    pub permission: PermView,
}

// A table of which the role may see something, behind others.
fn push_source<'a>(
    entry: &'a Tracked,
    permission: Option<PermView>,
    all: &mut Vec<Source<'a>>,
) -> Result<(), Memory>
    ensures { OnOk result (map source_view all.new.items ≡ map source_view all.old.items ++ with_source (tracked_view entry.now) (option_map permission_view permission) []) }
{
    match permission {
        Some(permission) => all.push(Source { entry, permission })?,
        None => {}
    }
    Ok(())
}

/// The tables of the copy: those of which the role may see something, in tracked order.
pub fn sources<'a>(alloc: Global, meta: &'a Meta, role: &Role) -> Result<Vec<Source<'a>>, Memory>
    ensures { IfOk result (λ all. map source_view all.items ≡ sources role.now (meta_view meta.now)) }
{
    let mut all = Vec::new(alloc);
    for entry in meta.tracked.as_slice() {
        push_source(entry, meta.perm(alloc, role, entry.table)?, &mut all)?;
    }
    Ok(all)
}

/// Whether all columns of a key are permitted.
pub fn keeps_key(permission: &PermView, key: &[ColId]) -> bool
    ensures { result ≡ keeps_key (permission_view permission.now) key.now }
{
    let columns = permission.cols.as_slice();
    key.iter().all(|column| has_column(columns, *column))
}

/// Whether a column shows in some rows only.
pub fn has_mask(permission: &PermView, column: ColId) -> bool
    ensures { result ≡ has_mask (permission_view permission.now) column }
{
    permission
        .masks
        .iter()
        .any(|mask| mask.col.at() == column.at())
}
