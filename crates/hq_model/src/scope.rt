ghost use Rattle.std.specs.Prelude.{◌≡◌, option_copied, slice_get};
ghost use Rattle.hq_model.specs.Meta.{meta_view};
ghost use Rattle.hq_model.specs.Schema.{rels_of};

use crate::{Catalog, ColId, Column, Meta, Rel, RelId, TableId};
use hq_base::Ty;

/// The tables and relationships over which an expression stands.
#[derive(Clone, Copy)]
pub struct Described<'a> {
    pub catalog: &'a Catalog,
    pub meta: &'a Meta,
}

impl<'a> Described<'a> {
    ghost use Rattle.std.specs.Prelude.{◌≡◌, option_copied, slice_get};
    ghost use Rattle.hq_model.specs.Schema.{table, column, rel};
    ghost use Rattle.hq_model.specs.Described.{scope_schema};

    /// A column of a table.
    pub fn column(&self, t: TableId, c: ColId) -> Option<&'a Column>
        ensures { option_copied result ≡ slice_get (table (scope_schema self.now) t).columns c }
    {
        match self.catalog.table(t) {
            Some(table) => table.column(c),
            None => None,
        }
    }

    /// A relationship of a table: none where the table is not tracked.
    pub fn rel(&self, t: TableId, r: RelId) -> Option<&'a Rel>
        ensures { option_copied result ≡ slice_get (table (scope_schema self.now) t).rels r }
    {
        match self.catalog.table(t) {
            Some(_) => rel_in(self.meta, t, r),
            None => None,
        }
    }

    /// The type of a column; text beyond the table's columns.
    pub fn column_type(&self, t: TableId, c: ColId) -> Ty
        ensures { result ≡ (column (scope_schema self.now) t c).ty }
    {
        match self.column(t, c) {
            Some(column) => column.ty,
            None => Ty::Text,
        }
    }

    /// The remote table of a relationship; the first table beyond the table's relationships.
    pub fn remote(&self, t: TableId, r: RelId) -> TableId
        ensures { result ≡ (rel (scope_schema self.now) t r).remote }
    {
        match self.rel(t, r) {
            Some(rel) => rel.remote,
            None => TableId::new(0),
        }
    }
}

// A relationship of a table's entry, where the table is tracked.
fn rel_in(meta: &Meta, t: TableId, r: RelId) -> Option<&Rel>
    ensures { option_copied result ≡ slice_get (rels_of (meta_view meta.now) t) r }
{
    match meta.tracked_table(t) {
        Some(tracked) => tracked.rel(r),
        None => None,
    }
}
