//! Puts the rows of tables on a disk.
ghost use Rattle.std.specs.Prelude.{◌≡◌, ◌≤◌, ◌^◌, ℕ, [], true, false, length, is_some, IfOk, OnOk, IsErrOf};
ghost use Rattle.std.specs.NonZero.{non_zero_usize_get};
ghost use Rattle.lru.specs.LruCache.{lru_cache};
ghost use Rattle.hq_io.specs.Causes.{Rose};
ghost use Rattle.hq_model.specs.Database.{is_database};
ghost use Rattle.hq_load_pages.specs.Counts.{Rises};
ghost use Rattle.hq_load_pages.specs.Directory.{are_inside};
ghost use Rattle.hq_load_pages.specs.DiskPages.{disk_pages};
ghost use Rattle.hq_load_pages.specs.Held.{WhereTold};
ghost use Rattle.hq_load_pages.specs.Pins.{is_pinned};
ghost use Rattle.hq_load_pages.specs.Writes.{Stores};
ghost use Rattle.hq_load_pages.specs.declared.refusal.PageRefusal.TheVariants as refusal;

use crate::cache::Pieces;
use crate::refusal::PageRefusal;
use crate::table_writer::{Directory, write_tables};
use hq_base::Memory;
use hq_io::Disk;
use hq_load_tables::Rows;
use hq_model::Table;
use lru::LruCache;
use std::alloc::Global;
use std::num::NonZeroUsize;

/// What a store of tables has besides its catalog and its disk.
#[derive(Drop)]
pub struct Made {
    pub pieces: Pieces,
    pub directory: Directory,
    pub pins: Vec<Option<Rows>>,
}

// So many tables, none of which is pinned.
fn no_pins(alloc: Global, count: usize) -> Result<Vec<Option<Rows>>, Memory>
    ensures places { IfOk result (λ pins. length pins.items ≡ count) }
    ensures none { IfOk result (λ pins. (t : ℕ) → is_pinned pins.items t ≡ false) }
{
    let mut pins = Vec::new(alloc);
    'places: while pins.len() < count {
        pins.push(None)?;
    }
    Ok(pins)
}

// A cache for pieces, which has none.
fn no_pieces(alloc: Global, pages: NonZeroUsize) -> Result<Pieces, Memory>
    ensures { IfOk result (λ pieces. pieces ≡ lru_cache [] (non_zero_usize_get pages)) }
{
    Ok(LruCache::new(alloc, pages)?)
}

/// Writes the pages of all tables to an empty disk.
pub fn parts<K: Disk>(
    alloc: Global,
    disk: &mut K,
    tables: &[Table],
    all: &[Rows],
    pages: NonZeroUsize,
) -> Result<Made, PageRefusal>
    requires valid { is_database tables.now all.now ≡ true }
    requires few { length tables.now ≤ 500 }
    requires empty { K.size disk.old ≡ 0 }
    ensures pieces { IfOk result (λ p. p.pieces ≡ lru_cache [] (non_zero_usize_get pages)) }
    ensures places { IfOk result (λ p. length p.pins.items ≡ length tables.now) }
    ensures none { IfOk result (λ p. (t : ℕ) → is_pinned p.pins.items t ≡ false) }
    ensures stores { IfOk result (λ p. WhereTold (K.held disk.new) (Stores p.directory.headers.items p.directory.runs.items tables.now all.now)) }
    ensures bytes { OnOk result (WhereTold (K.held disk.new) (λ held. held ≡ disk_pages 0 all.now)) }
    ensures inside { IfOk result (λ p. are_inside (length p.directory.headers.items) p.directory.runs.items ≡ true) }
    ensures each { IfOk result (λ p. length p.directory.runs.items ≡ length tables.now) }
    ensures pages { IfOk result (λ p. length p.directory.headers.items ≤ 2 ^ 51) }
    ensures told { OnOk result (is_some (K.held disk.new) ≡ is_some (K.held disk.old)) }
    ensures calls { IfOk result (λ p. Rises (K.calls disk.old) (K.calls disk.new) (length p.directory.headers.items)) }
    ensures failed { IsErrOf result refusal.Failed → Rose (K.faults disk.old) (K.faults disk.new) }
    ensures later { K.faults disk.old ≤ K.faults disk.new }
{
    let pieces = no_pieces(alloc, pages)?;
    let pins = no_pins(alloc, tables.len())?;
    let directory = write_tables(alloc, disk, tables, all)?;
    Ok(Made {
        pieces,
        directory,
        pins,
    })
}
