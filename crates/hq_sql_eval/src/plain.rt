//! At which of the rows of a table one of some tests is true.
ghost use Rattle.std.specs.Prelude.{◌≡◌, ◌&&◌, map, length, IfOk};
ghost use Rattle.hq_sql_constants.specs.RowTests.{one_holds};
ghost use Rattle.hq_sql_eval.specs.Narrowed.{narrowed};

use hq_base::{Memory, Val};
use hq_load_tables::Rows;
use hq_sql_constants::{RowTest, one_holds};
use std::alloc::Global;
use std::cell::Cell;

// Whether one of them is true of a row too, where others were before.
fn holds_too(
    alloc: Global,
    before: bool,
    tests: &[RowTest<'_, '_>],
    row: &[Val],
    looked: &Cell<u64>,
) -> Result<bool, Memory>
    ensures { IfOk result (λ b. b ≡ (before && one_holds tests.now row.now)) }
{
    if !before {
        return Ok(false);
    }
    one_holds(alloc, tests, row, looked)
}

/// At which of the rows of a table one of the tests is true too.
pub fn narrowed_by_tests(
    alloc: Global,
    before: &[bool],
    rows: &Rows,
    tests: &[RowTest<'_, '_>],
    looked: &Cell<u64>,
) -> Result<Vec<bool>, Memory>
    requires { length before.now ≡ length rows.now }
    ensures { IfOk result (λ truths. truths.items ≡ narrowed before.now (map (one_holds tests.now) rows.now)) }
{
    let mut truths = Vec::with_capacity(alloc, before.len())?;
    for position in 0..before.len() {
        let row = rows.row(position);
        truths.push(holds_too(alloc, before[position], tests, row, looked)?)?;
    }
    Ok(truths)
}
