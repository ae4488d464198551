ghost use Rattle.std.specs.Prelude.{◌≡◌, IfOk};

use crate::{Json, Memory, Txt};
use std::alloc::Global;

/// A value of a table's cell or of an operand.
#[derive(Drop, PartialEq, Eq, PartialOrd, Ord)]
pub enum Val {
    Null,
    Int(i64),
    Text(Txt),
    Bool(bool),
}

impl Val {
    /// An equal value.
    pub fn copy(&self, alloc: Global) -> Result<Val, Memory>
        ensures { IfOk result (λ copy. copy ≡ self.now) }
    {
        match self {
            Val::Null => Ok(Val::Null),
            Val::Int(n) => Ok(Val::Int(*n)),
            Val::Text(text) => Ok(Val::Text(text.copy(alloc)?)),
            Val::Bool(b) => Ok(Val::Bool(*b)),
        }
    }
}

/// A column's type, in ascending order of the names of their scalars.
#[derive(Clone, Copy, Debug, PartialEq, Eq)]
pub enum Ty {
    Boolean,
    /// Whole numbers of 32 bits with sign.
    Integer,
    Text,
    /// Whole numbers of 64 bits with sign.
    Bigint,
    /// 128 bits, each value a text in its one form.
    Uuid,
    /// Another type of PostgreSQL, each value the text that it gives for it.
    Opaque,
}

/// A cell of a statement's rows.
#[derive(Drop)]
pub enum Cell {
    Null,
    Int(i128),
    Text(Txt),
    Bool(bool),
    Json(Json),
}
