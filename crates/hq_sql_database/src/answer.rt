//! The answer to a text: reading it, testing it, pinning its tables, and taking what it means.
ghost use Rattle.std.specs.Prelude.{◌≡◌, ◌⊎◌, ◌≤◌, IfOk, IfErr, Err};
ghost use Rattle.hq_sql_tree.specs.Tree.{SelectTree};
ghost use Rattle.hq_sql_tree.specs.View.{select_view};
ghost use Rattle.hq_sql_text.specs.Readable.{Spells};
ghost use Rattle.hq_database.specs.Answered.{Answered, NotFitting};
ghost use Rattle.hq_sql_database.specs.Failures.{RoseFor};

use crate::pinning::pin_tables;
use hq_answer::Answer;
use hq_database::DbRefusal;
use hq_load_tables::Tables;
use hq_sql_check::{only_scanned_tables_matter, well_formed};
use hq_sql_eval::eval;
use hq_sql_text::{ReadRefusal, read};
use hq_sql_tree::Select;
use std::alloc::Global;

// The statement that a text spells.
fn read_text(alloc: Global, text: &[u8]) -> Result<Select, DbRefusal>
    ensures found { IfOk result (λ s. Spells text.now (select_view s)) }
    ensures not_sql { result ≡ Err DbRefusal.NotSql → (s : SelectTree) → Spells text.now s → ⊥ }
    ensures others { IfErr result (λ e. (e ≡ DbRefusal.NotSql) ⊎ (e ≡ DbRefusal.Memory)) }
{
    match read(alloc, text) {
        Ok(select) => Ok(select),
        Err(ReadRefusal::NotSql) => Err(DbRefusal::NotSql),
        Err(ReadRefusal::Memory) => Err(DbRefusal::Memory),
    }
}

/// The answer to a text over these tables. The tables that it takes rows from may be pinned behind the call. `looked` grows by
/// the comparisons that look-ups by index made, and stays at the greatest number.
pub fn answer<T: Tables>(
    alloc: Global,
    tables: &mut T,
    text: &[u8],
    looked: &mut u64,
) -> Result<Answer, DbRefusal>
    ensures answered { IfOk result (λ answer. Answered (T.tables tables.old) (T.database tables.old) text.now answer) }
    ensures not_sql { result ≡ Err DbRefusal.NotSql → (s : SelectTree) → Spells text.now s → ⊥ }
    ensures not_typed { result ≡ Err DbRefusal.NotTyped → NotFitting (T.tables tables.old) text.now }
    ensures failed { IfErr result (RoseFor (T.faults tables.old) (T.faults tables.new)) }
    ensures tables { T.tables tables.new ≡ T.tables tables.old }
    ensures database { T.database tables.new ≡ T.database tables.old }
    ensures later { T.faults tables.old ≤ T.faults tables.new }
    ensures looked { looked.old ≤ looked.new }
{
    only_scanned_tables_matter();
    let select = read_text(alloc, text)?;
    if !well_formed(alloc, &select, tables.catalog())? {
        return Err(DbRefusal::NotTyped);
    }
    pin_tables(alloc, tables, &select)?;
    Ok(eval(alloc, &select, &*tables, looked)?)
}
