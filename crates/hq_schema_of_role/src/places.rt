ghost use Rattle.std.specs.Prelude.{◌≡◌, IfOk};
ghost use Rattle.hq_schema_of_role.specs.Placed.{placed_from};

use crate::columns::part_count;
use crate::shown::{PlacedTable, PlacedTableList, ShownTableList};
use hq_base::{List, Memory};
use std::alloc::Global;

/// The tables with the places of their types, of which the first stands at this one.
pub fn placed(alloc: Global, first: u32, tables: ShownTableList) -> Result<PlacedTableList, Memory>
    ensures { IfOk result (λ ps. ps ≡ placed_from first tables) }
{
    let mut placed = List::new(alloc);
    let mut next = first;
    for shown in tables.into_vec() {
        let count = part_count(&shown);
        placed.push(PlacedTable { shown, first: next })?;
        let Some(behind) = next.checked_add(count) else {
            return Err(Memory);
        };
        next = behind;
    }
    Ok(placed)
}
