//! Tables with their rows, and indexes over these that a statement wants.
ghost use Rattle.std.specs.Prelude.{◌≡◌, ◌^◌, ◌<◌, ℕ, true, IfOk, length, slice_index_or};
ghost use Rattle.std.proofs.Props.{props};
ghost use Rattle.hq_load_index.specs.Indexes.{IsOver};
ghost use Rattle.hq_load_index.specs.declared.index.Index.{Index};
ghost use Rattle.hq_model.specs.Database.{are_rows};
ghost use Rattle.hq_sql_access.specs.Lent.{rows_lent};

use crate::wanted::wanted_columns;
use hq_base::Memory;
use hq_load_index::Index;
use hq_load_tables::Rows;
use hq_model::{ColId, Table};
use hq_sql_tree::Select;
use std::alloc::Global;

/// A table of the catalog with its rows, none where the statement takes none from it, and indexes over them beside their own ones.
#[derive(Drop)]
pub struct Stored<'d> {
    pub table: &'d Table,
    pub rows: Option<&'d Rows>,
    pub more: Vec<Index>,
    ghost valid: { are_rows table.now (rows_lent rows) ≡ true },
    ghost over: { (i : ℕ) (d : Index) → i < length more.items → IsOver (rows_lent rows) (slice_index_or more.items i d) } by { Prim.hlevel props },
}

// A table of no more rows has no index built.
const FEW: usize = 32;

// The index over these columns.
fn index_over(alloc: Global, rows: &Rows, columns: Vec<ColId>) -> Result<Index, Memory>
    requires { length rows.now < 2 ^ 31 }
    ensures { IfOk result (IsOver rows.now) }
{
    Index::build(alloc, rows.grid(), columns)
}

// The indexes that a statement wants over the rows of a table.
fn indexes_over(
    alloc: Global,
    table: &Table,
    rows: &Rows,
    select: &Select,
) -> Result<Vec<Index>, Memory>
    ensures { IfOk result (λ indexes. (i : ℕ) (d : Index) → i < length indexes.items → IsOver rows.now (slice_index_or indexes.items i d)) }
{
    let mut indexes = Vec::new(alloc);
    if rows.len() <= FEW {
        return Ok(indexes);
    }
    let wanted = wanted_columns(alloc, table, rows, select)?;
    for columns in wanted {
        indexes.push(index_over(alloc, rows, columns)?)?;
    }
    Ok(indexes)
}

fn more(
    alloc: Global,
    table: &Table,
    rows: Option<&Rows>,
    select: &Select,
) -> Result<Vec<Index>, Memory>
    ensures { IfOk result (λ indexes. (i : ℕ) (d : Index) → i < length indexes.items → IsOver (rows_lent rows.entry) (slice_index_or indexes.items i d)) }
{
    match rows {
        Some(rows) => indexes_over(alloc, table, rows, select),
        None => Ok(Vec::new(alloc)),
    }
}

impl<'d> Stored<'d> {
    /// A table with its rows, which are valid for it, and the indexes that a statement wants over them.
    pub fn of(
        alloc: Global,
        table: &'d Table,
        rows: Option<&'d Rows>,
        select: &Select,
    ) -> Result<Stored<'d>, Memory>
        requires { are_rows table.now (rows_lent rows) ≡ true }
        ensures table { IfOk result (λ s. s.table ≡ table.entry) }
        ensures rows { IfOk result (λ s. s.rows ≡ rows.entry) }
    {
        let more = more(alloc, table, rows, select)?;
        Ok(Stored { table, rows, more })
    }

    /// How many rows there are.
    pub fn number(&self) -> usize
        ensures { result ≡ length (rows_lent self.now.rows) }
    {
        match self.rows {
            Some(rows) => rows.len(),
            None => 0,
        }
    }
}
