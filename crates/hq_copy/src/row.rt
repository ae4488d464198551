//! The rows of a table of a copy.
ghost use Rattle.std.specs.Prelude.{◌≡◌, ◌++◌, ◌+◌, ◌<◌, ◌^◌, IfOk, OnOk, map};
ghost use Rattle.hq_copy_tables.specs.Originals.{IsOriginal, meta_in, role_in, schema_in};
ghost use Rattle.hq_copy_tables.specs.Views.{extra_view, source_view};
ghost use Rattle.hq_copy_filter.specs.Lent.{database_of, rows_of};
ghost use Rattle.hq_copy.specs.Direct.{direct_row, direct_value, rows_for, shown_values};
ghost use Rattle.hq_copy.specs.Lists.{lists_of};
ghost use Rattle.hq_model.specs.PermView.{permission_view};
ghost use Rattle.hq_model.specs.Schema.{numbered, rel};

use crate::numbers::{from_number, number_value, to_number};
use hq_base::{List, Memory, Val};
use hq_copy_filter::shown_value;
use hq_copy_tables::{Extra, Link, Original, Source, extras_of, link_remote, table_place};
use hq_load_tables::{RowList, Rows, ValList};
use hq_model::{Pair, PermView, TableId};
use std::alloc::Global;

/// Permitted rows of a table, lent.
pub type RowRefs<'d> = Vec<&'d [Val]>;

/// The rows that a copy is made of: all tables of the original, and of each table of the copy the permitted rows in their order.
#[derive(Clone, Copy)]
pub struct World<'d> {
    pub original: &'d Original<'d>,
    pub tables: &'d [&'d Rows],
    pub permitted: &'d [RowRefs<'d>],
}

impl<'d> World<'d> {
    // The permitted rows of a table of the original; none where it is not copied.
    fn rows(&self, t: TableId) -> &[&'d [Val]]
        ensures { rows_of result.now ≡ rows_for (map source_view self.now.original.now.sources.now) (lists_of self.now.permitted.now) t }
    {
        match self.permitted.get(table_place(self.original.sources, t)) {
            Some(rows) => rows.as_slice(),
            None => &[],
        }
    }

    // The pairs of a link, none where there is no such relationship.
    fn pairs(&self, link: Link) -> &'d [Pair]
        ensures { result.now ≡ (rel (schema_in self.now.original.now) link.table link.relationship).pairs }
    {
        match self.original.scope.rel(link.table, link.relationship) {
            Some(rel) => rel.pairs.as_slice(),
            None => &[],
        }
    }

    // The value of an added column in the row at a position, counted from 0.
    fn extra_value(&self, at: usize, row: &[Val], extra: &Extra) -> Val
        requires { at + 1 < 2 ^ 63 }
        ensures { result
            ≡ direct_value (schema_in self.now.original.now)
            (rows_for (map source_view self.now.original.now.sources.now) (lists_of self.now.permitted.now)) at row.now
            (extra_view extra.now) }
    {
        match extra {
            Extra::From { link, .. } => {
                let remote = link_remote(&self.original.scope, *link);
                number_value(from_number(self.pairs(*link), row, self.rows(remote)))
            }
            Extra::To { link, .. } => {
                let remote = link_remote(&self.original.scope, *link);
                let own = self.rows(link.table);
                number_value(to_number(self.pairs(*link), own, self.rows(remote), row))
            }
            Extra::Position => number_value(Some(at + 1)),
        }
    }
}

// The values that show of a row.
fn shown_values(
    alloc: Global,
    world: &World<'_>,
    permission: &PermView,
    source: &Source<'_>,
    row: &[Val],
) -> Result<ValList, Memory>
    ensures { IfOk result (λ values. values ≡ shown_values (permission_view permission.now) (schema_in world.now.original.now) (database_of world.now.tables.now) (source_view source.now) row.now) }
{
    let t = source.entry.table;
    let scope = &world.original.scope;
    let mut values = List::new(alloc);
    for column in source.permission.cols.as_slice() {
        values.push(shown_value(alloc, permission, scope, world.tables, t, row, *column)?)?;
    }
    Ok(values)
}

// The values of added columns, behind others.
fn push_extras(
    world: &World<'_>,
    at: usize,
    row: &[Val],
    extras: &[Extra],
    values: &mut ValList,
) -> Result<(), Memory>
    requires { at + 1 < 2 ^ 63 }
    ensures { OnOk result
        (values.new
        ≡ values.old
        ++ map
        (direct_value (schema_in world.now.original.now)
        (rows_for (map source_view world.now.original.now.sources.now) (lists_of world.now.permitted.now)) at row.now)
        (map extra_view extras.now)) }
{
    for extra in extras {
        values.push(world.extra_value(at, row, extra))?;
    }
    Ok(())
}

/// The rows of a table of the copy: of these rows of the original, which a bound permission lets through.
pub fn copied_rows(
    alloc: Global,
    world: &World<'_>,
    permission: &PermView,
    source: &Source<'_>,
    rows: &[&[Val]],
) -> Result<RowList, Memory>
    requires { IsOriginal world.now.original.now }
    ensures { IfOk result
        (λ all. all
        ≡ numbered
        (direct_row (role_in world.now.original.now) (meta_in world.now.original.now) (schema_in world.now.original.now) (database_of world.now.tables.now)
        (permission_view permission.now) (rows_for (map source_view world.now.original.now.sources.now) (lists_of world.now.permitted.now)) (source_view source.now))
        0 (rows_of rows.now)) }
{
    let extras = extras_of(alloc, world.original, source)?;
    let mut all = List::new(alloc);
    for (at, row) in rows.iter().enumerate() {
        let mut values = shown_values(alloc, world, permission, source, row)?;
        push_extras(world, at, row, &extras, &mut values)?;
        all.push(values)?;
    }
    Ok(all)
}
