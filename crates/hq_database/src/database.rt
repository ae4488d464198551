ghost use Rattle.std.specs.Prelude.{◌≡◌, ◌⊎◌, ◌≤◌, ℕ, true, List as Items, Option, Err, IfOk, IfErr, IfSome};
ghost use Rattle.hq_model.specs.Catalog.{is_catalog};
ghost use Rattle.hq_model.specs.Database.{Row, is_database};
ghost use Rattle.hq_model.specs.declared.table.Table.{Table};
ghost use Rattle.hq_sql_tree.specs.Tree.{SelectTree};
ghost use Rattle.hq_sql_text.specs.Readable.{Spells};
ghost use Rattle.hq_database.specs.Answered.{Answered, NotFitting};
ghost use Rattle.hq_database.specs.Asked.{Asked, NotAsked, TellsFailure};

use crate::DbRefusal;
use hq_answer::Answer;
use std::alloc::Global;

/// A database that answers texts of SQL. No call changes what it holds.
pub trait Database {
    /// The tables of its catalog.
    ghost tables: { Self → Items Table };

    /// For each table its rows in file order, where the database tells them.
    ghost database: { Self → Option (Items (Items Row)) };

    /// How many texts were asked; it stays at its greatest value.
    ghost asks: { Self → ℕ };

    /// The text that was asked last, if any was.
    ghost last: { Self → Option (Items ℕ) };

    /// How often it has failed. It never falls, and stays at its greatest value.
    ghost faults: { Self → ℕ };

    fn faults(&self) -> u64
        ensures { result ≡ faults self.now };

    /// Answers a text: the JSON that the statement means, as text.
    fn run(&mut self, alloc: Global, text: &[u8]) -> Result<Answer, DbRefusal>
        ensures failed { IfErr result (λ e. TellsFailure (faults self.old) (faults self.new) e) }

        // Each text is counted and kept, unless memory is wanted before it could be.
        ensures asked { Asked (asks self.old) (asks self.new) (last self.new) text.now ⊎ ((result ≡ Err DbRefusal.Memory) × NotAsked (asks self.old) (asks self.new) (last self.old) (last self.new)) }

        // Where it is answered, the text is that of a statement that fits the catalog, and this is its meaning.
        ensures answered { IfOk result (λ answer. Answered (tables self.old) (database self.old) text.now answer) }

        // NotSql comes where no statement is spelled so, and NotTyped where one is that does not fit the catalog.
        ensures not_sql { result ≡ Err DbRefusal.NotSql → (s : SelectTree) → Spells text.now s → ⊥ }
        ensures not_typed { result ≡ Err DbRefusal.NotTyped → NotFitting (tables self.old) text.now }

        // The database is unchanged, and the count of faults never falls.
        ensures tables { tables self.new ≡ tables self.old }
        ensures database { database self.new ≡ database self.old }
        ensures later { faults self.old ≤ faults self.new };

    ghost catalog_fits: { (db : Self) → is_catalog (tables db) ≡ true };

    ghost database_fits: { (db : Self) → IfSome (database db) (λ d. is_database (tables db) d ≡ true) };
}
