//! What is in scope, and where rows come from.
ghost use Rattle.std.specs.Prelude.{◌≡◌, ◌&&◌, [], map, length, bytes_eq, slice_index_or};
ghost use Rattle.hq_sql_tree.specs.View.{from_view};
ghost use Rattle.hq_sql_tree.specs.Meaning.{rows_named};
ghost use Rattle.hq_sql_access.specs.Lent.{rows_lent};
ghost use Rattle.hq_sql_access.specs.View.{named_view, made_view, row_view, row_in, values_in, world_of, source_view};
ghost use Rattle.hq_sql_access.specs.Sources.{alias_in, rows_given};

use crate::pinned::Pinned;
use crate::row::{Made, Named, Row};
use crate::stored::Stored;
use hq_base::{Txt, Val};
use hq_load_tables::Rows;
use hq_model::Table;
use hq_sql_tree::{From, Join, Select};

/// The aliases in scope, the innermost first, each with its row. The row of a join that is put off is the first one of its
/// select, which is evaluated where a column of it is asked for. Joins that stand beside one another, of which the last one is
/// the innermost, are in scope with the rows that they have; those without one are put off.
#[derive(Clone, Copy)]
pub enum Scope<'s, 'd> {
    Nothing,
    Bound {
        alias: &'d Txt,
        row: Row<'s, 'd>,
        outer: &'s Scope<'s, 'd>,
    },
    Later {
        alias: &'d Txt,
        select: &'d Select,
        outer: &'s Scope<'s, 'd>,
    },
    Joined {
        joins: &'d [Join],
        rows: &'s [Option<Made<'d>>],
        outer: &'s Scope<'s, 'd>,
    },
}

/// The rows that an aggregate is taken over: none, or those of an alias.
#[derive(Clone, Copy)]
pub enum Group<'s, 'd> {
    Alone,
    Of {
        alias: &'d Txt,
        rows: &'s [Made<'d>],
    },
}

/// The rows that a FROM gives.
#[derive(Clone, Copy)]
pub enum Source<'s, 'd> {
    Stored(&'d Stored<'d>),
    Made(&'s [Made<'d>]),
    One,
}

/// Whether a table has this schema and name.
pub fn is_named(table: &Table, schema: &Txt, name: &Txt) -> bool
    ensures { result ≡ (bytes_eq table.now.schema schema.now && bytes_eq table.now.name name.now) }
{
    table.schema == *schema && table.name == *name
}

// The rows of the first table of this schema and name.
fn stored_named<'s, 'd>(world: &Pinned<'d>, schema: &Txt, name: &Txt) -> Source<'s, 'd>
    ensures { source_view result ≡ rows_named (world_of world.now).tables (world_of world.now).database schema.now name.now }
{
    for stored in world.tables {
        if is_named(stored.table, schema, name) {
            return Source::Stored(stored);
        }
    }
    Source::Made(&[])
}

/// The rows that a FROM gives, of which `made` are those of a sub-select.
pub fn source_of<'s, 'd>(world: &Pinned<'d>, from: &From, made: &'s [Made<'d>]) -> Source<'s, 'd>
    ensures { source_view result ≡ rows_given (from_view from.now) (world_of world.now) (map made_view made.now) }
{
    match from {
        From::Table { schema, table, .. } => stored_named(world, schema, table),
        From::Sub { .. } => Source::Made(made),
        From::One { .. } => Source::One,
    }
}

/// The alias of a FROM.
pub fn alias_of<'d>(from: &'d From) -> &'d Txt
    ensures { result.now ≡ alias_in (from_view from.now) }
{
    match from {
        From::Table { alias, .. } | From::Sub { alias, .. } | From::One { alias } => alias,
    }
}

/// How many rows there are.
pub fn count<'s, 'd>(source: Source<'s, 'd>) -> usize
    ensures { result ≡ length (source_view source.entry) }
{
    match source {
        Source::Stored(stored) => stored.number(),
        Source::Made(made) => made.len(),
        Source::One => 1,
    }
}

fn values_at<'d>(rows: Option<&'d Rows>, position: usize) -> &'d [Val]
    ensures { result.now ≡ slice_index_or (rows_lent rows.entry) position [] }
{
    match rows {
        Some(rows) => rows.row(position),
        None => &[],
    }
}

fn cells_at<'s, 'd>(made: &'s [Made<'d>], position: usize) -> &'s [Named<'d>]
    ensures { map named_view result.now ≡ slice_index_or (map made_view made.now) position [] }
{
    if position < made.len() {
        return &made[position].cells;
    }
    &[]
}

/// The values of the row at this place of a table, counted from 0: none where there is no such row, and none of another FROM.
pub fn stored_values<'s, 'd>(source: Source<'s, 'd>, position: usize) -> &'d [Val]
    ensures { result.now ≡ values_in source.entry position }
{
    match source {
        Source::Stored(stored) => values_at(stored.rows, position),
        Source::Made(_) => &[],
        Source::One => &[],
    }
}

/// The row at this place, counted from 0: without cells where there is none.
#[tactic(auto, using(crate::proofs::NamedCells::stored_row))]
pub fn row_at<'s, 'd>(source: Source<'s, 'd>, position: usize) -> Row<'s, 'd>
    ensures { row_view result ≡ row_in source.entry position }
{
    match source {
        Source::Stored(stored) => Row::Stored {
            columns: stored.table.columns.as_slice(),
            values: values_at(stored.rows, position),
        },
        Source::Made(made) => Row::Made {
            cells: cells_at(made, position),
        },
        Source::One => Row::One,
    }
}
