ghost use Rattle.std.specs.Prelude.{◌^◌, ◌<◌, [], length};
ghost use Rattle.hq_base.specs.Due.{Gives};
ghost use Rattle.hq_load_index.specs.Grids.{rows_in};
ghost use Rattle.hq_load_tables.specs.Keys.{keys_due};
ghost use Rattle.hq_load_tables.specs.declared.load.refusal.LoadRefusal.TheVariants as refusal;

use super::rows::ReadRows;
use crate::rows::keyed_index;
use crate::{LoadRefusal, Rows};
use hq_model::Table;
use std::alloc::Global;

/// The rows, where no two have one key and the record behind them was not refused. The index over the primary key finds a
/// key that is repeated.
pub fn with_keys(alloc: Global, read: ReadRows, table: &Table) -> Result<Rows, LoadRefusal>
    requires { length (rows_in read.grid) < 2 ^ 31 }
    ensures { Gives (λ rows. rows) refusal.Memory (keys_due table.now [] (rows_in read.grid) read.refusal) result }
{
    let keyed = keyed_index(alloc, &read.grid, table)?;
    if let Some(repeat) = keyed.repeat {
        return Err(LoadRefusal::RepeatedKey {
            line: repeat.row as u64 + 2,
            earlier: repeat.earlier as u64 + 2,
        });
    }
    if let Some(refusal) = read.refusal {
        return Err(refusal);
    }
    Ok(Rows::over(alloc, read.grid, keyed.index, table)?)
}
