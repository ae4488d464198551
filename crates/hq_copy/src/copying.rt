//! The rows of all tables of a copy.
ghost use Rattle.std.specs.Prelude.{◌≡◌, IfOk, map};
ghost use Rattle.hq_copy_tables.specs.Originals.{IsOriginal, meta_in, role_in, schema_in};
ghost use Rattle.hq_copy_tables.specs.Views.{source_view};
ghost use Rattle.hq_copy_filter.specs.Lent.{database_of};
ghost use Rattle.hq_copy.specs.Direct.{direct_lists, lists_due, permitted_lists, rows_for};
ghost use Rattle.hq_copy.specs.Lists.{lists_of};
ghost use Rattle.hq_model.specs.PermView.{permission_view};

use crate::row::{RowRefs, World, copied_rows};
use hq_base::Memory;
use hq_copy_filter::permitted_rows;
use hq_copy_tables::Original;
use hq_load_tables::{RowList, Rows};
use hq_model::PermView;
use std::alloc::Global;

// The permitted rows of each table of the copy.
fn permitted<'d>(
    alloc: Global,
    original: &Original<'_>,
    grants: &[PermView],
    tables: &[&'d Rows],
) -> Result<Vec<RowRefs<'d>>, Memory>
    ensures { IfOk result
        (λ lists. lists_of lists.items
        ≡ permitted_lists (schema_in original.now) (database_of tables.now) (map source_view original.now.sources.now)
        (map permission_view grants.now)) }
{
    let mut lists = Vec::new(alloc);
    let sources = original.sources;
    for (at, source) in sources.iter().enumerate() {
        let Some(grant) = grants.get(at) else {
            return Ok(lists);
        };
        let scope = &original.scope;
        lists.push(permitted_rows(alloc, grant, scope, tables, source.entry.table)?)?;
    }
    Ok(lists)
}

// The rows of each table of the copy.
fn copied(alloc: Global, world: &World<'_>, grants: &[PermView]) -> Result<Vec<RowList>, Memory>
    requires { IsOriginal world.now.original.now }
    ensures { IfOk result
        (λ all. all.items
        ≡ direct_lists (role_in world.now.original.now) (meta_in world.now.original.now) (schema_in world.now.original.now) (database_of world.now.tables.now)
        (rows_for (map source_view world.now.original.now.sources.now) (lists_of world.now.permitted.now))
        (map source_view world.now.original.now.sources.now) (map permission_view grants.now) (lists_of world.now.permitted.now)) }
{
    let mut all = Vec::new(alloc);
    let sources = world.original.sources;
    for (at, source) in sources.iter().enumerate() {
        let (Some(grant), Some(rows)) = (grants.get(at), world.permitted.get(at)) else {
            return Ok(all);
        };
        all.push(copied_rows(alloc, world, grant, source, rows.as_slice())?)?;
    }
    Ok(all)
}

/// The rows of each table of a copy, made of all rows of the original and of what is granted of the tables that are copied.
pub fn all_copied_rows<'d>(
    alloc: Global,
    original: &'d Original<'d>,
    grants: &[PermView],
    tables: &'d [&'d Rows],
) -> Result<Vec<RowList>, Memory>
    requires { IsOriginal original.now }
    ensures { IfOk result
        (λ all. all.items
        ≡ lists_due (role_in original.now) (meta_in original.now) (schema_in original.now) (database_of tables.now)
        (map source_view original.now.sources.now) (map permission_view grants.now)) }
{
    let permitted = permitted(alloc, original, grants, tables)?;
    let world = World {
        original,
        tables,
        permitted: &permitted,
    };
    copied(alloc, &world, grants)
}
