ghost use Rattle.std.specs.Prelude.{◌≡◌, IfOk, map};
ghost use Rattle.hq_model.specs.Meta.{perm_view, tracked_view, meta_view};

use crate::copy::{TryCopy, copy_list};
use crate::{Catalog, Meta, Perm, PermList, Session, Tracked, TrackedList};
use hq_base::{List, Memory};
use std::alloc::Global;

fn copy_perm(alloc: Global, perm: &Perm) -> Result<Perm, Memory>
    ensures { IfOk result (λ copy. perm_view copy ≡ perm_view perm.now) }
{
    Ok(Perm {
        role: perm.role.copy(alloc)?,
        cols: copy_list(alloc, &perm.cols)?,
        filter: perm.filter.copy(alloc)?,
        limit: perm.limit,
        aggregations: perm.aggregations,
    })
}

fn copy_perms(alloc: Global, perms: &PermList) -> Result<PermList, Memory>
    ensures { IfOk result (λ copy. map perm_view copy ≡ map perm_view perms.now) }
{
    let mut copy = List::new(alloc);
    for perm in perms.as_slice() {
        copy.push(copy_perm(alloc, perm)?)?;
    }
    Ok(copy)
}

fn copy_tracked(alloc: Global, tracked: &Tracked) -> Result<Tracked, Memory>
    ensures { IfOk result (λ copy. tracked_view copy ≡ tracked_view tracked.now) }
{
    Ok(Tracked {
        table: tracked.table,
        name: tracked.name.copy(alloc)?,
        column_names: copy_list(alloc, &tracked.column_names)?,
        roots: tracked.roots.try_copy(alloc)?,
        rels: copy_list(alloc, &tracked.rels)?,
        perms: copy_perms(alloc, &tracked.perms)?,
    })
}

fn copy_all_tracked(alloc: Global, tracked: &TrackedList) -> Result<TrackedList, Memory>
    ensures { IfOk result (λ copy. map tracked_view copy ≡ map tracked_view tracked.now) }
{
    let mut copy = List::new(alloc);
    for one in tracked.as_slice() {
        copy.push(copy_tracked(alloc, one)?)?;
    }
    Ok(copy)
}

impl Meta {
    /// Equal metadata.
    pub fn copy(&self, alloc: Global) -> Result<Meta, Memory>
        ensures { IfOk result (λ copy. meta_view copy ≡ meta_view self.now) }
    {
        Ok(Meta {
            tracked: copy_all_tracked(alloc, &self.tracked)?,
            inherited: copy_list(alloc, &self.inherited)?,
        })
    }
}

impl Catalog {
    /// An equal catalog.
    pub fn copy(&self, alloc: Global) -> Result<Catalog, Memory>
        ensures { IfOk result (λ copy. copy.tables ≡ self.now.tables) }
    {
        Ok(Catalog {
            tables: copy_list(alloc, &self.tables)?,
        })
    }
}

impl Session {
    /// An equal session.
    pub fn copy(&self, alloc: Global) -> Result<Session, Memory>
        ensures { IfOk result (λ copy. copy ≡ self.now) }
    {
        Ok(Session {
            role: self.role.copy(alloc)?,
            vars: copy_list(alloc, &self.vars)?,
        })
    }
}
