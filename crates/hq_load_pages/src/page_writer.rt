//! Writes the pages of runs, one behind the other.
ghost use Rattle.std.specs.Prelude.{◌≡◌, ◌≤◌, ◌<◌, ◌+◌, ◌-◌, ◌*◌, ◌^◌, length, is_some, OnOk, IsErrOf, option_map};
ghost use Rattle.hq_io.specs.Causes.{Rose, one_more};
ghost use Rattle.hq_load_pages.specs.Counts.{Rises};
ghost use Rattle.hq_load_pages.specs.DiskPages.{Grows, page_bytes, run_pages};
ghost use Rattle.hq_load_pages.specs.Held.{WhereTold};
ghost use Rattle.hq_load_pages.specs.Writes.{Wrote};
ghost use Rattle.hq_load_pages.specs.declared.refusal.PageRefusal.TheVariants as refusal;

use crate::Header;
use crate::page::{PAGE, PIECE, page_with};
use crate::refusal::PageRefusal;
use hq_io::Disk;
use std::alloc::Global;

/// More pages than any disk has.
const MOST_PAGES: usize = 1 << 51;

// Writes one page more.
fn write_page<K: Disk>(
    alloc: Global,
    disk: &mut K,
    headers: &mut Vec<Header>,
    due: Header,
    piece: &[u8],
) -> Result<(), PageRefusal>
    requires length { length piece.now ≡ due.length }
    requires size { K.size disk.old ≡ 4096 * length headers.old.items }
    requires few { length headers.old.items < 2 ^ 51 }
    ensures size { OnOk result (K.size disk.new ≡ 4096 * length headers.new.items) }
    ensures count { OnOk result (length headers.new.items ≡ length headers.old.items + 1) }
    ensures wrote { OnOk result (WhereTold (K.held disk.new) (Wrote (K.held disk.old) headers.old.items headers.new.items piece.now)) }
    ensures grown { OnOk result (Grows (K.held disk.old) (K.held disk.new) (page_bytes due.table due.piece piece.now)) }
    ensures told { OnOk result (is_some (K.held disk.new) ≡ is_some (K.held disk.old)) }
    ensures calls { OnOk result (K.calls disk.new ≡ option_map one_more (K.calls disk.old)) }
    ensures failed { IsErrOf result refusal.Failed → Rose (K.faults disk.old) (K.faults disk.new) }
    ensures later { K.faults disk.old ≤ K.faults disk.new }
{
    let page = page_with(alloc, due, piece)?;
    disk.write_at(PAGE as u64 * headers.len() as u64, &page)?;
    headers.push(due)?;
    Ok(())
}

/// Writes the pages of a table's run.
pub fn write_pages<K: Disk>(
    alloc: Global,
    disk: &mut K,
    headers: &mut Vec<Header>,
    table: u32,
    run: &[u8],
) -> Result<(), PageRefusal>
    requires size { K.size disk.old ≡ 4096 * length headers.old.items }
    requires few { length headers.old.items ≤ 2 ^ 51 }
    requires small { length run.now < 2 ^ 32 }
    ensures size { OnOk result (K.size disk.new ≡ 4096 * length headers.new.items) }
    ensures count { OnOk result (length headers.old.items ≤ length headers.new.items) }
    ensures few { OnOk result (length headers.new.items ≤ 2 ^ 51) }
    ensures wrote { OnOk result (WhereTold (K.held disk.new) (Wrote (K.held disk.old) headers.old.items headers.new.items run.now)) }
    ensures grown { OnOk result (Grows (K.held disk.old) (K.held disk.new) (run_pages table run.now)) }
    ensures told { OnOk result (is_some (K.held disk.new) ≡ is_some (K.held disk.old)) }
    ensures calls { OnOk result (Rises (K.calls disk.old) (K.calls disk.new) (length headers.new.items - length headers.old.items)) }
    ensures failed { IsErrOf result refusal.Failed → Rose (K.faults disk.old) (K.faults disk.new) }
    ensures later { K.faults disk.old ≤ K.faults disk.new }
{
    let mut piece = 0u32;
    let mut rest = run;
    'pieces: while !rest.is_empty() {
        if headers.len() >= MOST_PAGES {
            return Err(PageRefusal::Memory);
        }
        let length = rest.len().min(PIECE);
        let (front, behind) = rest.split_at(length);
        let due = Header {
            table,
            piece,
            length: length as u16,
        };
        write_page(alloc, disk, headers, due, front)?;
        piece += 1;
        rest = behind;
    }
    Ok(())
}
