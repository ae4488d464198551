ghost use Rattle.std.specs.Prelude.{◌≡◌, ◌<◌, ◌||◌, ◌==◌, ℕ, false};
ghost use Rattle.hq_load_tables.specs.Pins.{contains};

use std::marker::Model;

/// The most tables of a catalog.
const MOST_TABLES: usize = 500;

/// A set of tables of a catalog. It takes no memory besides its own.
#[derive(Drop)]
pub struct TableSet {
    marks: [bool; MOST_TABLES],
}

impl Model for TableSet {
    ghost use Rattle.std.specs.Prelude.{List, Bool};

    ghost Value = { List Bool };

    ghost view = { λ s. s.marks };
}

impl TableSet {
    /// The set of no table.
    pub fn new() -> Self
        ensures { (u : ℕ) → contains result u ≡ false }
    {
        TableSet {
            marks: [false; MOST_TABLES],
        }
    }

    /// Puts the table at this place into the set.
    pub fn insert(&mut self, at: usize)
        requires { at < 500 }
        ensures { (u : ℕ) → contains self.new u ≡ (u == at) || contains self.old u }
    {
        self.marks[at] = true;
    }
}
