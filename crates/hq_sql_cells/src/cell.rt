ghost use Rattle.std.specs.Prelude.{◌≡◌, IfOk};
ghost use Rattle.hq_base.specs.Cells.{cell_of, json_of};
ghost use Rattle.hq_base.specs.Json.{json_view};
ghost use Rattle.hq_model.specs.Logic.{null_test};
ghost use Rattle.hq_sql_cells.specs.View.{cell_view};

use hq_base::{Json, Memory, Txt, Val};
use std::alloc::Global;

/// A cell of a statement's rows. Its text is lent, by a table or by the statement.
#[derive(Drop)]
pub enum Cell<'d> {
    Null,
    Int(i128),
    Text(&'d Txt),
    Bool(bool),
    Json(Json),
}

impl<'d> Cell<'d> {
    /// The cell of a table's value.
    pub fn of(value: &'d Val) -> Cell<'d>
        ensures { cell_view result ≡ cell_of value.now }
    {
        match value {
            Val::Null => Cell::Null,
            Val::Int(n) => Cell::Int(*n as i128),
            Val::Text(text) => Cell::Text(text),
            Val::Bool(b) => Cell::Bool(*b),
        }
    }

    /// An equal cell, whose text is the same one.
    pub fn copy(&self, alloc: Global) -> Result<Cell<'d>, Memory>
        ensures { IfOk result (λ copy. cell_view copy ≡ cell_view self.now) }
    {
        match self {
            Cell::Null => Ok(Cell::Null),
            Cell::Int(n) => Ok(Cell::Int(*n)),
            Cell::Text(text) => Ok(Cell::Text(text)),
            Cell::Bool(b) => Ok(Cell::Bool(*b)),
            Cell::Json(json) => Ok(Cell::Json(json.copy(alloc)?)),
        }
    }

    /// The JSON of the cell.
    pub fn into_json(self, alloc: Global) -> Result<Json, Memory>
        ensures { IfOk result (λ json. json_view json ≡ json_of (cell_view self.entry)) }
    {
        match self {
            Cell::Null => Ok(Json::Null),
            Cell::Int(n) => Ok(Json::Int(n)),
            Cell::Text(text) => Ok(Json::Str(text.copy(alloc)?)),
            Cell::Bool(b) => Ok(Json::Bool(b)),
            Cell::Json(json) => Ok(json),
        }
    }

    /// IS NULL, which is never unknown.
    pub fn is_null(&self) -> bool
        ensures { result ≡ null_test (cell_view self.now) }
    {
        matches!(self, Cell::Null)
    }
}
