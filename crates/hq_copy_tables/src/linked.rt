//! The relationships between tables of a copy.
ghost use Rattle.std.specs.Prelude.{◌≡◌, ◌++◌, IfOk, OnOk, map};
ghost use Rattle.hq_copy_definition.specs.Sources.{kept_relationships, link_remote, same_link};
ghost use Rattle.hq_copy_tables.specs.Linked.{links_at, links_over};
ghost use Rattle.hq_copy_tables.specs.Views.{link_view, source_view};
ghost use Rattle.hq_model.specs.Meta.{meta_view};
ghost use Rattle.hq_model.specs.Described.{scope_schema};

use crate::Source;
use crate::relationships::kept_relationships;
use hq_base::Memory;
use hq_model::{Described, RelId, Role, TableId};
use std::alloc::Global;

/// A relationship of a table of the copy, by the places of both in the original.
#[derive(Clone, Copy)]
pub struct Link {
    pub table: TableId,
    pub relationship: RelId,
}

// The links of a table, behind others.
fn push_links(
    alloc: Global,
    scope: &Described<'_>,
    role: &Role,
    t: TableId,
    links: &mut Vec<Link>,
) -> Result<(), Memory>
    ensures { OnOk result (map link_view links.new.items ≡ map link_view links.old.items ++ links_at role.now (meta_view scope.now.meta.now) (scope_schema scope.now) t) }
{
    let kept = kept_relationships(alloc, scope, role, t)?;
    for relationship in &kept {
        links.push(Link {
            table: t,
            relationship: *relationship,
        })?;
    }
    Ok(())
}

/// All links between tables of the copy, by table and relationship.
pub fn links(
    alloc: Global,
    scope: &Described<'_>,
    role: &Role,
    sources: &[Source<'_>],
) -> Result<Vec<Link>, Memory>
    ensures { IfOk result (λ links. map link_view links.items ≡ links_over role.now (meta_view scope.now.meta.now) (scope_schema scope.now) (map source_view sources.now)) }
{
    let mut links = Vec::new(alloc);
    for source in sources {
        push_links(alloc, scope, role, source.entry.table, &mut links)?;
    }
    Ok(links)
}

/// The remote table of a link.
pub fn link_remote(scope: &Described<'_>, link: Link) -> TableId
    ensures { result ≡ link_remote (scope_schema scope.now) (link_view link) }
{
    scope.remote(link.table, link.relationship)
}

/// Whether two links are one.
pub(crate) fn same_link(link: Link, other: Link) -> bool
    ensures { result ≡ same_link (link_view link) (link_view other) }
{
    link.table.at() == other.table.at() && link.relationship.at() == other.relationship.at()
}
