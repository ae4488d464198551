//! Rows in memory: those of tables, which are lent, and those that a select makes.
ghost use Rattle.std.specs.Prelude.{◌≡◌, ◌∷◌, [], map, IfOk};
ghost use Rattle.hq_sql_cells.specs.View.{cell_view};
ghost use Rattle.hq_sql_tree.specs.Meaning.{cell_named, named_row, or_null_row};
ghost use Rattle.hq_sql_access.specs.Sources.{row_of_one};
ghost use Rattle.hq_sql_access.specs.View.{named_view, made_view, row_view, first_row};

use hq_base::{Memory, Txt, Val};
use hq_model::Column;
use hq_sql_cells::Cell;
use std::alloc::Global;

/// A cell with its name.
#[derive(Drop)]
pub struct Named<'d> {
    pub name: &'d Txt,
    pub cell: Cell<'d>,
}

/// A row that a select makes.
#[derive(Drop)]
pub struct Made<'d> {
    pub cells: Vec<Named<'d>>,
}

/// A row that is lent: of a table, of a select, or the one row of One, whose column `u` is true.
#[derive(Clone, Copy)]
pub enum Row<'s, 'd> {
    Stored {
        columns: &'d [Column],
        values: &'d [Val],
    },
    Made {
        cells: &'s [Named<'d>],
    },
    One,
}

#[tactic(auto, using(crate::proofs::NamedCells::named_step))]
fn stored_cell<'d>(columns: &'d [Column], values: &'d [Val], name: &Txt) -> Cell<'d>
    ensures { cell_view result ≡ cell_named (named_row columns.now values.now) name.now }
{
    for (at, column) in columns.iter().enumerate() {
        if at >= values.len() {
            return Cell::Null;
        }
        if column.name == *name {
            return Cell::of(&values[at]);
        }
    }
    Cell::Null
}

fn made_cell<'d>(alloc: Global, cells: &[Named<'d>], name: &Txt) -> Result<Cell<'d>, Memory>
    ensures { IfOk result (λ cell. cell_view cell ≡ cell_named (map named_view cells.now) name.now) }
{
    for named in cells {
        if *named.name == *name {
            return named.cell.copy(alloc);
        }
    }
    Ok(Cell::Null)
}

fn cell_of_one<'d>(name: &Txt) -> Cell<'d>
    ensures { cell_view result ≡ cell_named row_of_one name.now }
{
    if name.as_str() == "u" {
        Cell::Bool(true)
    } else {
        Cell::Null
    }
}

/// The cell of this name, NULL where the row has none.
pub fn cell_at<'d>(alloc: Global, row: Row<'_, 'd>, name: &Txt) -> Result<Cell<'d>, Memory>
    ensures { IfOk result (λ cell. cell_view cell ≡ cell_named (row_view row.entry) name.now) }
{
    match row {
        Row::Stored { columns, values } => Ok(stored_cell(columns, values, name)),
        Row::Made { cells } => made_cell(alloc, cells, name),
        Row::One => Ok(cell_of_one(name)),
    }
}

/// The cell of this name of a row that is used up.
pub fn cell_taken<'d>(made: Made<'d>, name: &Txt) -> Cell<'d>
    ensures { cell_view result ≡ cell_named (made_view made.entry) name.now }
{
    for named in made.cells {
        if *named.name == *name {
            return named.cell;
        }
    }
    Cell::Null
}

/// The row of NULLs.
pub fn null_row<'d>(alloc: Global) -> Made<'d>
    ensures { made_view result ≡ [] }
{
    Made {
        cells: Vec::new(alloc),
    }
}

/// The first row, and the row of NULLs where there is none.
pub fn first_row<'d>(alloc: Global, rows: Vec<Made<'d>>) -> Made<'d>
    ensures { made_view result ≡ first_row (map made_view rows.entry.items) }
{
    for row in rows {
        return row;
    }
    null_row(alloc)
}

/// The rows, and the row of NULLs alone where there is none.
pub fn or_null_row<'d>(alloc: Global, mut rows: Vec<Made<'d>>) -> Result<Vec<Made<'d>>, Memory>
    ensures { IfOk result (λ all. map made_view all.items ≡ or_null_row (map made_view rows.entry.items)) }
{
    if rows.is_empty() {
        rows.push(null_row(alloc))?;
    }
    Ok(rows)
}

/// The one row of one cell.
pub fn one_row<'d>(alloc: Global, name: &'d Txt, cell: Cell<'d>) -> Result<Vec<Made<'d>>, Memory>
    ensures { IfOk result (λ rows. map made_view rows.items ≡ ((name.now, cell_view cell.entry) ∷ []) ∷ []) }
{
    let mut cells = Vec::new(alloc);
    cells.push(Named { name, cell })?;
    let mut rows = Vec::new(alloc);
    rows.push(Made { cells })?;
    Ok(rows)
}

fn copy_cells<'d>(alloc: Global, cells: &[Named<'d>]) -> Result<Vec<Named<'d>>, Memory>
    ensures { IfOk result (λ copies. map named_view copies.items ≡ map named_view cells.now) }
{
    let mut copies = Vec::with_capacity(alloc, cells.len())?;
    for named in cells {
        let cell = named.cell.copy(alloc)?;
        copies.push(Named {
            name: named.name,
            cell,
        })?;
    }
    Ok(copies)
}

impl<'d> Made<'d> {
    /// An equal row.
    pub fn copy(&self, alloc: Global) -> Result<Made<'d>, Memory>
        ensures { IfOk result (λ copy. made_view copy ≡ made_view self.now) }
    {
        Ok(Made {
            cells: copy_cells(alloc, &self.cells)?,
        })
    }
}
