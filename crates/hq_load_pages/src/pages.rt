//! The pages of a table, in ascending order.
ghost use Rattle.std.specs.Prelude.{◌≡◌, ◌≤◌, ◌+◌, ◌^◌, ◌++◌, true, length, IfOk, OnOk, OnErr, IsErrOf, None, Some};
ghost use Rattle.std.specs.Map.{keys_of};
ghost use Rattle.hq_io.specs.Causes.{Rose};
ghost use Rattle.hq_load_pages.specs.Counts.{Rises};
ghost use Rattle.hq_load_pages.specs.Held.{are_pieces, due_run, WhereTold};
ghost use Rattle.hq_load_pages.specs.Touch.{missed_from, touched_from, TouchesSome};
ghost use Rattle.hq_load_pages.specs.declared.cache.TouchRefusal.TheVariants as refusal;

use crate::Header;
use crate::cache::{Pieces, TouchRefusal, touch_page};
use hq_base::Memory;
use hq_io::Disk;
use std::alloc::Global;

// Adds a piece.
fn append(run: &mut Vec<u8>, piece: &[u8]) -> Result<(), Memory>
    ensures { OnOk result (run.new.items ≡ run.old.items ++ piece.now) }
{
    run.extend_from_slice(piece)?;
    Ok(())
}

/// Touches so many pages from this one on, and gives their pieces, one behind the other.
pub fn touch_run<K: Disk>(
    alloc: Global,
    pieces: &mut Pieces,
    disk: &mut K,
    headers: &[Header],
    first: usize,
    count: usize,
) -> Result<Vec<u8>, TouchRefusal>
    requires inside { first + count ≤ length headers.now }
    requires small { first + count ≤ 2 ^ 51 }
    requires pieces { WhereTold (K.held disk.old) (λ held. are_pieces (λ v. v.items) headers.now held pieces.old.entries ≡ true) }
    ensures cached { OnOk result (keys_of pieces.new.entries ≡ touched_from first count pieces.old.cap (keys_of pieces.old.entries)) }
    ensures refused { OnErr result (TouchesSome first count pieces.old.cap (keys_of pieces.old.entries) (keys_of pieces.new.entries)) }
    ensures cap { pieces.new.cap ≡ pieces.old.cap }
    ensures run { IfOk result (λ run. WhereTold (K.held disk.old) (λ held. due_run headers.now held first count ≡ Some run.items)) }
    ensures pieces { WhereTold (K.held disk.old) (λ held. are_pieces (λ v. v.items) headers.now held pieces.new.entries ≡ true) }
    ensures broken { IsErrOf result refusal.Broken → WhereTold (K.held disk.old) (λ held. due_run headers.now held first count ≡ None) }
    ensures calls { OnOk result (Rises (K.calls disk.old) (K.calls disk.new) (missed_from first count pieces.old.cap (keys_of pieces.old.entries))) }
    ensures failed { IsErrOf result refusal.Failed → Rose (K.faults disk.old) (K.faults disk.new) }
    ensures held { K.held disk.new ≡ K.held disk.old }
    ensures later { K.faults disk.old ≤ K.faults disk.new }
{
    let mut run = Vec::new(alloc);
    let mut done = 0;
    'pages: while done < count {
        let piece = touch_page(alloc, pieces, disk, headers, first + done)?;
        append(&mut run, &piece)?;
        done += 1;
    }
    Ok(run)
}
