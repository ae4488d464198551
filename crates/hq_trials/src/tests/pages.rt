//! Tables whose rows lie in the pages of a disk in memory.
ghost use Rattle.std.specs.Prelude.{None};

use hq_base::{List, Txt};
use hq_generator::{Generated, generate};
use hq_io::{Disk, DiskFailed, NumList};
use hq_io_memory::MemDisk;
use hq_load_pages::{PageRefusal, PagedTables};
use hq_load_tables::{MemTables, StoreRefusal, Tables};
use hq_model::TableId;
use std::alloc::Global;
use std::num::NonZeroUsize;
use std::test::Fail;

// Authors, whose articles take some pages.
const AUTHORS: u32 = 50;

// Room on a disk for all of them.
const ROOM: usize = 1_000_000;

type Made = Result<PagedTables<MemDisk>, PageRefusal>;

// The generated tables on a disk with so much room, whose call of this number fails, and a cache of so many pages.
fn made(alloc: Global, room: usize, failing: u64, pages: usize) -> Result<Made, Fail> {
    let mut calls: NumList = List::new(alloc);
    calls.push(failing)?;
    let disk = MemDisk::new(alloc, &[], room, calls)?;
    let Generated {
        catalog,
        meta: _,
        rows,
    } = generate(alloc, AUTHORS)?;
    let pages = NonZeroUsize::new(pages).unwrap_or(NonZeroUsize::MIN);
    Ok(PagedTables::make(alloc, catalog, rows, disk, pages).map_err(|unmade| unmade.why))
}

// The same tables in memory.
fn in_memory(alloc: Global) -> Result<MemTables, Fail> {
    let Generated {
        catalog,
        meta: _,
        rows,
    } = generate(alloc, AUTHORS)?;
    Ok(MemTables::new(catalog, rows))
}

// Whether the table at this place can be pinned in both, and has the same rows in both.
fn has_same<S: Tables, T: Tables>(alloc: Global, left: &mut S, right: &mut T, at: usize) -> bool {
    if at >= left.catalog().tables.len() || at >= right.catalog().tables.len() {
        return false;
    }
    let t = TableId::new(at);
    if left.pin(alloc, t).is_err() || right.pin(alloc, t).is_err() {
        return false;
    }
    let (left, right) = (left.pinned(t), right.pinned(t));
    if left.len() != right.len() {
        return false;
    }
    for place in 0..left.len() {
        if left.row(place) != right.row(place) {
            return false;
        }
    }
    true
}

#[test]
fn rows_are_read_as_they_were(rt: HostRuntime) -> Result<(), Fail> {
    let alloc = rt.alloc();
    let mut memory = in_memory(alloc)?;
    for pages in [1, 100] {
        match made(alloc, ROOM, 0, pages)? {
            Ok(mut store) => {
                for at in 0..2 {
                    assert!(rt; has_same(alloc, &mut memory, &mut store, at));
                }
            }
            Err(_) => assert!(rt; false),
        }
    }
    Ok(())
}

// Pins both tables.
fn pin_both<S: Tables>(alloc: Global, store: &mut S) -> Result<(), StoreRefusal> {
    for at in 0..2 {
        if at < store.catalog().tables.len() {
            store.pin(alloc, TableId::new(at))?;
        }
    }
    Ok(())
}

// How often the disk is called where both tables are written, pinned, released and pinned again, with a cache of so many
// pages; none where that fails.
fn calls(alloc: Global, pages: usize) -> Result<Option<u64>, Fail> {
    let Ok(mut store) = made(alloc, ROOM, 0, pages)? else {
        return Ok(None);
    };
    for _ in 0..2 {
        if pin_both(alloc, &mut store).is_err() {
            return Ok(None);
        }
        store.release();
    }
    Ok(Some(store.into_disk().calls()))
}

// How often it is called where they are written only.
fn writes(alloc: Global) -> Result<Option<u64>, Fail> {
    Ok(
        made(alloc, ROOM, 0, 1)?
            .ok()
            .map(|store| store.into_disk().calls()),
    )
}

#[test]
fn a_page_of_the_cache_is_not_read_again(rt: HostRuntime) -> Result<(), Fail> {
    let alloc = rt.alloc();
    let Some(pages) = writes(alloc)? else {
        assert!(rt; false);
        return Ok(());
    };
    assert!(rt; pages > 2);
    assert!(rt; calls(alloc, 100)? == pages.checked_mul(2));
    assert!(rt; calls(alloc, 1)? == pages.checked_mul(3));
    Ok(())
}

#[test]
fn a_disk_that_fails_is_told(rt: HostRuntime) -> Result<(), Fail> {
    let alloc = rt.alloc();
    assert!(rt; made(alloc, ROOM, 2, 1)?.err() == Some(PageRefusal::Failed));
    assert!(rt; made(alloc, 4096, 0, 1)?.err() == Some(PageRefusal::Failed));
    Ok(())
}

// A pin whose read fails leaves the store as it was, and the next one has the rows.
#[test]
fn a_read_that_fails_is_tried_again(rt: HostRuntime) -> Result<(), Fail> {
    let alloc = rt.alloc();
    let first_read = writes(alloc)?.unwrap_or(0).saturating_add(1);
    let Ok(mut store) = made(alloc, ROOM, first_read, 100)? else {
        assert!(rt; false);
        return Ok(());
    };
    assert!(rt;
        matches!(
            pin_both(alloc, &mut store),
            Err(StoreRefusal::Failed {
                before: 0,
                after: 1
            })
        )
    );
    let mut memory = in_memory(alloc)?;
    assert!(rt; has_same(alloc, &mut memory, &mut store, 0));
    assert!(rt; store.faults() == 1);
    Ok(())
}

// A disk in memory that gives one byte of its first page changed, and does not tell its bytes.
#[derive(Drop)]
struct ChangedDisk {
    disk: MemDisk,
    place: usize,
}

impl Disk for ChangedDisk {
    ghost size = { λ d. ⟦<MemDisk as Disk>⟧.size d.disk };

    ghost held = { λ _. None };

    ghost calls = { λ d. ⟦<MemDisk as Disk>⟧.calls d.disk };

    ghost faults = { λ d. ⟦<MemDisk as Disk>⟧.faults d.disk };

    fn faults(&self) -> u64 {
        self.disk.faults()
    }

    fn start(&mut self, name: &Txt) -> Result<(), DiskFailed> {
        self.disk.start(name)
    }

    fn write_at(&mut self, at: u64, piece: &[u8]) -> Result<(), DiskFailed> {
        self.disk.write_at(at, piece)
    }

    fn read_at(&mut self, at: u64, buf: &mut [u8]) -> Result<usize, DiskFailed> {
        let count = self.disk.read_at(at, buf)?;
        if at == 0 && self.place < buf.len() {
            buf[self.place] ^= 1;
        }
        Ok(count)
    }

    ghost told_size = { λ _. tt };
}

// What two pins of the first table and one of the second come to, where this byte of the first page is changed.
fn pins_of_changed(alloc: Global, place: usize) -> Result<Option<[bool; 3]>, Fail> {
    let disk = ChangedDisk {
        disk: MemDisk::new(alloc, &[], ROOM, List::new(alloc))?,
        place,
    };
    let Generated {
        catalog,
        meta: _,
        rows,
    } = generate(alloc, AUTHORS)?;
    let Ok(mut store) = PagedTables::make(alloc, catalog, rows, disk, NonZeroUsize::MIN) else {
        return Ok(None);
    };
    if store.catalog().tables.len() < 2 {
        return Ok(None);
    }
    let failed = |pin: Result<(), StoreRefusal>, count: u64| {
        matches!(pin, Err(StoreRefusal::Failed { before, after }) if before == count && after > count)
    };
    let first = failed(store.pin(alloc, TableId::new(0)), 0);
    let again = failed(store.pin(alloc, TableId::new(0)), 1);
    let other = store.pin(alloc, TableId::new(1)).is_ok();
    Ok(Some([first, again, other]))
}

// Each pin of the table of that page fails, and the other table is there.
#[test]
fn a_changed_page_is_told_each_time(rt: HostRuntime) -> Result<(), Fail> {
    for place in 0..10 {
        assert!(rt; pins_of_changed(rt.alloc(), place)? == Some([true, true, true]));
    }
    Ok(())
}
