//! Cells as a set of those that were seen holds them: what tells two cells apart, and no more.
ghost use Rattle.std.specs.Prelude.{◌≡◌, IfOk, map};
ghost use Rattle.hq_sql_cells.specs.Seen.{seen_of};

use crate::Cell;
use hq_base::{Memory, Txt};
use std::alloc::Global;

/// A cell of a set. The order of these variants is that of the kinds of cells; of JSON one is like another.
#[derive(PartialEq, Eq, PartialOrd, Ord, Drop)]
pub enum SeenCell<'d> {
    Null,
    Int(i128),
    Text(&'d Txt),
    Bool(bool),
    Json,
}

fn seen_cell<'d>(cell: &Cell<'d>) -> SeenCell<'d>
    ensures { result ≡ seen_of cell.now }
{
    match cell {
        Cell::Null => SeenCell::Null,
        Cell::Int(n) => SeenCell::Int(*n),
        Cell::Text(text) => SeenCell::Text(text),
        Cell::Bool(b) => SeenCell::Bool(*b),
        Cell::Json(_) => SeenCell::Json,
    }
}

/// The cells of a row, as a set holds them.
pub fn seen_cells<'d>(alloc: Global, cells: &[Cell<'d>]) -> Result<Vec<SeenCell<'d>>, Memory>
    ensures { IfOk result (λ seen. seen.items ≡ map seen_of cells.now) }
{
    let mut seen = Vec::with_capacity(alloc, cells.len())?;
    for cell in cells {
        seen.push(seen_cell(cell))?;
    }
    Ok(seen)
}
