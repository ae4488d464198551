ghost use Rattle.std.specs.Prelude.{◌≡◌, ◌==◌};
ghost use Rattle.std.specs.List.{list_any};

use hq_base::List;
use std::marker::Model;

/// A table of the catalog, by its place from 0.
#[derive(Clone, Copy)]
pub struct TableId {
    at: usize,
}

impl Model for TableId {
    ghost use Rattle.std.specs.Prelude.{ℕ};

    ghost Value = { ℕ };

    ghost view = { λ t. t.at };

    ghost inverse = { λ n. record { at = n } };
}

impl TableId {
    /// The table at this place.
    pub fn new(at: usize) -> Self
        ensures { result ≡ at }
    {
        TableId { at }
    }

    /// Its place.
    pub fn at(self) -> usize
        ensures { result ≡ self }
    {
        self.at
    }
}

/// A column of its table, by its place from 0.
#[derive(Clone, Copy)]
pub struct ColId {
    at: usize,
}

impl Model for ColId {
    ghost use Rattle.std.specs.Prelude.{ℕ};

    ghost Value = { ℕ };

    ghost view = { λ c. c.at };

    ghost inverse = { λ n. record { at = n } };
}

impl ColId {
    /// The column at this place.
    pub fn new(at: usize) -> Self
        ensures { result ≡ at }
    {
        ColId { at }
    }

    /// Its place.
    pub fn at(self) -> usize
        ensures { result ≡ self }
    {
        self.at
    }
}

/// A list of columns.
pub type ColList = List<ColId>;

/// Whether a column is among these.
pub fn has_column(columns: &[ColId], column: ColId) -> bool
    ensures { result ≡ list_any (λ c. c == column) columns.now }
{
    columns.iter().any(|c| c.at() == column.at())
}

/// A relationship of its tracked table, by its place from 0.
#[derive(Clone, Copy)]
pub struct RelId {
    at: usize,
}

impl Model for RelId {
    ghost use Rattle.std.specs.Prelude.{ℕ};

    ghost Value = { ℕ };

    ghost view = { λ r. r.at };

    ghost inverse = { λ n. record { at = n } };
}

impl RelId {
    /// The relationship at this place.
    pub fn new(at: usize) -> Self
        ensures { result ≡ at }
    {
        RelId { at }
    }

    /// Its place.
    pub fn at(self) -> usize
        ensures { result ≡ self }
    {
        self.at
    }
}
