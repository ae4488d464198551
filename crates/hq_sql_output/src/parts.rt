//! Parts of a JSON text.
ghost use Rattle.std.specs.Prelude.{◌≡◌, ◌++◌, ◌∷◌, [], ◌||◌, nat_lt, if◌then◌else◌, OnOk};
ghost use Rattle.hq_base.specs.Cells.{json_of};
ghost use Rattle.hq_base.specs.Compact.{compact};
ghost use Rattle.hq_sql_cells.specs.View.{cell_view};

use hq_base::{Bytes, Memory, put_quoted};
use hq_sql_cells::Cell;
use itoa::Buffer;
use std::alloc::Global;

/// A comma before the part of this number, but for the very first one: `begun` says that parts were written before.
pub fn put_separator(out: &mut Bytes, begun: bool, at: usize) -> Result<(), Memory>
    ensures { OnOk result (out.new ≡ out.old ++ (if begun || nat_lt 0 at then 44 ∷ [] else [])) }
{
    if begun || at > 0 {
        out.push(b',')
    } else {
        Ok(())
    }
}

/// The JSON of a cell.
pub fn put_cell(alloc: Global, out: &mut Bytes, cell: &Cell<'_>) -> Result<(), Memory>
    ensures { OnOk result (out.new ≡ out.old ++ compact (json_of (cell_view cell.now))) }
{
    match cell {
        Cell::Null => out.append(b"null"),
        Cell::Int(whole) => {
            let mut buffer = Buffer::new();
            out.append(buffer.format(*whole).as_bytes())
        }
        Cell::Text(text) => put_quoted(out, text),
        Cell::Bool(true) => out.append(b"true"),
        Cell::Bool(false) => out.append(b"false"),
        Cell::Json(json) => json.write_to(alloc, out),
    }
}
