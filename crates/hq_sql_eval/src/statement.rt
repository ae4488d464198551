//! The answer that a statement means.
ghost use Rattle.std.specs.Prelude.{◌≡◌, ◌<◌, ◌≤◌, ℕ, length, List as Items, [], Some, true, cond, IfOk, slice_get};
ghost use Rattle.hq_answer.specs.Answers.{IsAnswer};
ghost use Rattle.hq_model.specs.Database.{Row, are_rows};
ghost use Rattle.hq_sql_tree.specs.View.{select_view};
ghost use Rattle.hq_sql_tree.specs.Meaning.{meaning};
ghost use Rattle.hq_sql_check.specs.Agree.{HasRows};
ghost use Rattle.hq_sql_check.specs.Scans.{scans};
ghost use Rattle.hq_sql_access.specs.Lent.{rows_lent};
ghost use Rattle.hq_sql_access.specs.Pins.{world_in};

use crate::matchers::read_select;
use crate::remember::remember;
use hq_answer::Answer;
use hq_base::Memory;
use hq_like::Matcher;
use hq_load_tables::{Rows, Tables};
use hq_model::{Table, TableId};
use hq_sql_access::pinned::Pinned;
use hq_sql_access::stored::Stored;
use hq_sql_access::work::Work;
use hq_sql_check::{only_scanned_tables_matter, scanned};
use hq_sql_output::answer;
use hq_sql_tree::Select;
use std::alloc::Global;

// The rows of a table, none where the statement takes no rows from it.
#[tactic(auto, using(crate::proofs::Stored::valid_rows))]
fn stored_rows<'d, T: Tables>(
    tables: &'d T,
    table: &Table,
    is_scanned: bool,
    at: usize,
) -> Option<&'d Rows>
    requires pinned { is_scanned ≡ true → T.is_pinned tables.now at ≡ true }
    requires table { slice_get (T.tables tables.now) at ≡ Some table.now }
    ensures rows { rows_lent result ≡ cond is_scanned (T.rows tables.now at) [] }
    ensures valid { are_rows table.now (rows_lent result) ≡ true }
{
    if is_scanned {
        return Some(tables.pinned(TableId::new(at)));
    }
    None
}

// The tables of the catalog, each with its rows where the statement takes rows from it.
#[tactic(auto, using(crate::proofs::Stored::table_at))]
fn stored<'d, T: Tables>(
    alloc: Global,
    select: &Select,
    tables: &'d T,
) -> Result<Vec<Stored<'d>>, Memory>
    requires { (t : ℕ) → t < length (T.tables tables.now) → scans (select_view select.now) (T.tables tables.now) t ≡ true → T.is_pinned tables.now t ≡ true }
    ensures tables { IfOk result (λ world. (world_in world.items).tables ≡ T.tables tables.now) }
    ensures rows { IfOk result (λ world. HasRows (select_view select.now) (T.tables tables.now) (T.rows tables.now) (world_in world.items).database) }
{
    let list = tables.catalog().tables.as_slice();
    let marks = scanned(alloc, select, list)?;
    let mut world = Vec::with_capacity(alloc, list.len())?;
    for (at, table) in list.iter().enumerate() {
        let rows = stored_rows(tables, table, marks[at], at);
        world.push(Stored::of(alloc, table, rows, select)?)?;
    }
    Ok(world)
}

// What a statement means, where nothing is known of its conditions. Memory comes also where EXISTS tried more rows than it may.
fn eval_plainly<'d>(
    alloc: Global,
    select: &'d Select,
    tables: &'d [Stored<'d>],
    work: &'d Work,
    matchers: &'d [Matcher],
) -> Result<Answer, Memory>
    ensures { IfOk result (λ answer. IsAnswer answer (meaning (select_view select.now) (world_in tables.now))) }
{
    let world = Pinned::new(alloc, tables, work, matchers);
    answer(alloc, select, &world)
}

// The same, where first is learned what is worth knowing of its conditions.
fn eval_knowing<'d>(
    alloc: Global,
    select: &'d Select,
    tables: &'d [Stored<'d>],
    work: &'d Work,
    matchers: &'d [Matcher],
) -> Result<Answer, Memory>
    ensures { IfOk result (λ answer. IsAnswer answer (meaning (select_view select.now) (world_in tables.now))) }
{
    let mut world = Pinned::new(alloc, tables, work, matchers);
    remember(alloc, select, &mut world)?;
    answer(alloc, select, &world)
}

// The same: what conditions are is learned only where EXISTS tries many rows, since it costs a look at all rows of their tables.
fn eval_stored<'d>(
    alloc: Global,
    select: &'d Select,
    tables: &'d [Stored<'d>],
    work: &'d Work,
    matchers: &'d [Matcher],
) -> Result<Answer, Memory>
    ensures { IfOk result (λ answer. IsAnswer answer (meaning (select_view select.now) (world_in tables.now))) }
{
    match eval_plainly(alloc, select, tables, work, matchers) {
        Ok(answer) => Ok(answer),
        Err(refusal) => {
            if !work.is_spent() {
                return Err(refusal);
            }
            work.refill();
            eval_knowing(alloc, select, tables, work, matchers)
        }
    }
}

// How many rows EXISTS may try before it: one for every 64 rows that there are.
fn rows_to_try(tables: &[Stored<'_>]) -> u64 {
    let mut rows = 512u64;
    for stored in tables {
        rows = rows.saturating_add(stored.number() as u64);
    }
    rows / 64
}

/// What a statement means over pinned tables: over each database in which the tables that it takes rows from have the rows
/// that are pinned. Memory comes also where a number on the way does not fit 128 bits. `looked` grows by the comparisons that
/// look-ups by index made, also where the call ends in Memory, and stays at the greatest number.
pub fn eval<T: Tables>(
    alloc: Global,
    select: &Select,
    tables: &T,
    looked: &mut u64,
) -> Result<Answer, Memory>
    requires pinned { (t : ℕ) → t < length (T.tables tables.now) → scans (select_view select.now) (T.tables tables.now) t ≡ true → T.is_pinned tables.now t ≡ true }
    ensures value { IfOk result (λ answer. (d : Items (Items Row)) → HasRows (select_view select.now) (T.tables tables.now) (T.rows tables.now) d
        → IsAnswer answer (meaning (select_view select.now) (record { tables = T.tables tables.now; database = d }))) }
    ensures looked { looked.old ≤ looked.new }
{
    only_scanned_tables_matter();
    let stored = stored(alloc, select, tables)?;
    let work = Work::new(rows_to_try(&stored));
    let mut matchers = Vec::new(alloc);
    read_select(alloc, select, &mut matchers)?;
    let answer = eval_stored(alloc, select, stored.as_slice(), &work, matchers.as_slice());
    *looked = looked.saturating_add(work.looked.get());
    answer
}
