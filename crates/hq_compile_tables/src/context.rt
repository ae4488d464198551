ghost use Rattle.std.specs.Prelude.{◌≡◌};

use hq_base::List;
use hq_model::{Bexp, ColId, Column, Described, Mask, MaskList, Pair, RelId, Table, TableId};

/// What a request is granted of a table: the bound filter, the most rows of a list, and the bound masks.
#[derive(Drop)]
pub struct Granted {
    pub table: TableId,
    pub filter: Bexp,
    /// In rows.
    pub limit: Option<u64>,
    /// In column order.
    pub masks: MaskList,
}

/// What a request is granted.
pub type GrantedList = List<Granted>;

/// What a statement depends on beside its request: the tables with their relationships, and what is granted of them.
#[derive(Clone, Copy)]
pub struct Context<'a> {
    pub scope: Described<'a>,
    pub granted: &'a GrantedList,
}

impl<'a> Context<'a> {
    ghost use Rattle.std.specs.Prelude.{◌≡◌, ◌==◌, find, map, option_copied};
    ghost use Rattle.hq_model.specs.PermView.{mask_view};
    ghost use Rattle.hq_model.specs.Schema.{table, rel};
    ghost use Rattle.hq_compile_tables.specs.Contexts.{context_schema, context_granted};

    /// The columns of a table; none beyond the catalog.
    pub fn columns(&self, t: TableId) -> &'a [Column]
        ensures { result.now ≡ (table (context_schema self.now) t).columns }
    {
        match self.scope.catalog.table(t) {
            Some(table) => table.columns.as_slice(),
            None => &[],
        }
    }

    /// The columns of a table's primary key; none beyond the catalog.
    pub fn key(&self, t: TableId) -> &'a [ColId]
        ensures { result.now ≡ (table (context_schema self.now) t).key }
    {
        match self.scope.catalog.table(t) {
            Some(table) => table.key.as_slice(),
            None => &[],
        }
    }

    /// The pairs of a relationship; none beyond the table's relationships.
    pub fn pairs(&self, t: TableId, r: RelId) -> &'a [Pair]
        ensures { result.now ≡ (rel (context_schema self.now) t r).pairs }
    {
        match self.scope.rel(t, r) {
            Some(rel) => rel.pairs.as_slice(),
            None => &[],
        }
    }

    /// The remote table of a relationship; the first table beyond the table's relationships.
    pub fn remote(&self, t: TableId, r: RelId) -> TableId
        ensures { result ≡ (rel (context_schema self.now) t r).remote }
    {
        self.scope.remote(t, r)
    }

    /// What is granted of a table, where something is.
    pub fn granted(&self, t: TableId) -> Option<&'a Granted>
        ensures { option_copied result ≡ find (λ g. g.table == t) self.now.granted.now }
    {
        self.granted
            .as_slice()
            .iter()
            .find(|granted| granted.table.at() == t.at())
    }

    /// The masks of a table's columns, in column order; none where nothing is granted of the table.
    pub fn masks(&self, t: TableId) -> &'a [Mask]
        ensures { map mask_view result.now ≡ (context_granted self.now).masks t }
    {
        match self.granted(t) {
            Some(granted) => granted.masks.as_slice(),
            None => &[],
        }
    }
}
