ghost use Rattle.std.specs.Prelude.{◌≡◌, ◌==◌, IfOk, find, option_copied};
ghost use Rattle.hq_schema_of_role.specs.Placed.{link_to, link_among, links_from};

use crate::shown::{Link, LinkList, PlacedTable, PlacedTableList};
use hq_base::{List, Memory};
use hq_model::{Rel, RelId, RelList, TableId};
use std::alloc::Global;

fn placed_at(tables: &PlacedTableList, t: TableId) -> Option<&PlacedTable>
    ensures { option_copied result ≡ find (λ p. p.shown.table == t) tables.now }
{
    tables
        .as_slice()
        .iter()
        .find(|p| p.shown.table.at() == t.at())
}

// A relationship to a table, where the role may see that.
fn link_to(
    alloc: Global,
    at: RelId,
    rel: &Rel,
    remote: Option<&PlacedTable>,
) -> Result<Option<Link>, Memory>
    ensures { IfOk result (λ link. link ≡ link_to at rel.now (option_copied remote.entry)) }
{
    let Some(remote) = remote else {
        return Ok(None);
    };
    Ok(Some(Link {
        name: rel.name.copy(alloc)?,
        rel: at,
        many: rel.many,
        aggregates: remote.shown.aggregates,
        first: remote.first,
    }))
}

// The same, among the tables that the role may see.
fn link_among(
    alloc: Global,
    tables: &PlacedTableList,
    at: RelId,
    rel: &Rel,
) -> Result<Option<Link>, Memory>
    ensures { IfOk result (λ link. link ≡ link_among tables.now at rel.now) }
{
    link_to(alloc, at, rel, placed_at(tables, rel.remote))
}

/// The relationships of a table to those that the role may see.
pub fn links_of(alloc: Global, tables: &PlacedTableList, rels: &RelList) -> Result<LinkList, Memory>
    ensures { IfOk result (λ links. links ≡ links_from tables.now 0 rels.now) }
{
    let rels = rels.as_slice();
    let mut links = List::new(alloc);
    for (at, rel) in rels.iter().enumerate() {
        if let Some(link) = link_among(alloc, tables, RelId::new(at), rel)? {
            links.push(link)?;
        }
    }
    Ok(links)
}
