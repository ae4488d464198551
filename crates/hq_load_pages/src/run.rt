//! The cells of a table as one run of bytes, both ways.
ghost use Rattle.std.specs.Prelude.{◌≡◌, ◌++◌, IfOk, IfSome, OnOk, length, Some, option_map};
ghost use Rattle.hq_base.specs.Lists.{Each};
ghost use Rattle.hq_load_pages.specs.Cells.{ReadsBack};
ghost use Rattle.hq_load_pages.specs.Runs.{cells_of, run_of};

use crate::cell::{read_cell, write_cell};
use hq_base::{Memory, Val};
use std::alloc::Global;

/// Adds the bytes of cells, from which they read back.
pub fn write_run(out: &mut Vec<u8>, values: &[Val]) -> Result<(), Memory>
    ensures bytes { OnOk result (out.new.items ≡ out.old.items ++ run_of values.now) }
    ensures back { OnOk result (cells_of (length values.now) (run_of values.now) ≡ Some values.now) }
    ensures cells { OnOk result (Each ReadsBack values.now) }
{
    let mut rest = values;
    'cells: while let [value, others @ ..] = rest {
        write_cell(out, value)?;
        rest = others;
    }
    Ok(())
}

/// So many cells, where the bytes are exactly theirs.
pub fn read_run(alloc: Global, count: usize, bytes: &[u8]) -> Result<Option<Vec<Val>>, Memory>
    ensures read { IfOk result (λ found. option_map (λ values. values.items) found ≡ cells_of count bytes.now) }
    ensures exact { IfOk result (λ found. IfSome found (λ values. run_of values.items ≡ bytes.now)) }
    ensures count { IfOk result (λ found. IfSome found (λ values. length values.items ≡ count)) }
{
    let mut values = Vec::with_capacity(alloc, count.min(bytes.len()))?;
    let mut rest = bytes;
    'cells: while values.len() < count {
        let Some(cell) = read_cell(alloc, rest)? else {
            return Ok(None);
        };
        values.push(cell.value)?;
        rest = cell.rest;
    }
    if rest.is_empty() {
        Ok(Some(values))
    } else {
        Ok(None)
    }
}
