//! A store of tables whose rows lie on a disk.
ghost use Rattle.std.specs.Prelude.{◌≡◌, ◌≤◌, ◌<◌, ◌+◌, ◌-◌, ◌^◌, ◌||◌, ◌==◌, ℕ, true, false, length, min, slice_get, [], Some, is_some, option_map, IfOk, IfSome, MatchResult, IfErr, IsOk, OnOk, OnErr};
ghost use Rattle.std.specs.Option.{option_and_then};
ghost use Rattle.std.proofs.Props.{props};
ghost use Rattle.std.specs.NonZero.{non_zero_usize_get};
ghost use Rattle.lru.specs.LruCache.{lru_cache};
ghost use Rattle.hq_io.specs.Causes.{Rose};
ghost use Rattle.hq_model.specs.Database.{is_database};
ghost use Rattle.hq_load_pages.specs.Counts.{Rises};
ghost use Rattle.hq_load_pages.specs.Directory.{are_inside, reads_database, tables_read};
ghost use Rattle.hq_load_pages.specs.DiskPages.{disk_pages};
ghost use Rattle.hq_load_pages.specs.Held.{are_pieces, WhereTold};
ghost use Rattle.hq_load_pages.specs.Pins.{is_pinned, pinned_rows, PinsFit, PinsOf};
ghost use Rattle.hq_load_pages.specs.PinTouches.{Reads, TouchesFirst, Touches, sum_of};
ghost use Rattle.hq_load_tables.specs.Store.{TellsRise};

use crate::Header;
use crate::cache::{Pieces, TouchRefusal};
use crate::make::parts;
use crate::refusal::PageRefusal;
use crate::table_rows::read_table;
use crate::table_run::TableRun;
use hq_io::{Disk, count_fault};
use hq_load_tables::{Rows, RowsList, StoreRefusal, Tables};
use hq_model::{Catalog, Table, TableId};
use std::alloc::Global;
use std::num::NonZeroUsize;

/// The tables of a catalog, whose rows lie on a disk in pages. The rows of a table are in memory while it is pinned, and
/// the pieces of the pages that were touched last stay there.
#[derive(Drop)]
pub struct PagedTables<K: Disk> {
    catalog: Catalog,
    disk: K,
    pieces: Pieces,
    headers: Vec<Header>,
    runs: Vec<TableRun>,
    pins: Vec<Option<Rows>>,
    broken: u64,
    ghost few: { length headers.items ≤ 2 ^ 51 },
    ghost inside: { are_inside (length headers.items) runs.items ≡ true },
    ghost each: { length runs.items ≡ length catalog.tables },
    ghost places: { length pins.items ≡ length catalog.tables },
    ghost stand: { WhereTold (K.held disk) (λ held. are_pieces (λ v. v.items) headers.items held pieces.entries ≡ true) },
    ghost readable: { WhereTold (K.held disk) (λ held. reads_database catalog.tables (tables_read headers.items held catalog.tables runs.items) ≡ true) },
    ghost fit: { PinsFit catalog.tables pins.items } by { Prim.hlevel props },
    ghost told: { WhereTold (K.held disk) (λ held. PinsOf (tables_read headers.items held catalog.tables runs.items) pins.items) } by { Prim.hlevel props },
    ghost sound: { WhereTold (K.held disk) (λ _. broken ≡ 0) },
}

/// What is left where the rows of tables are not on a disk: the disk, and why.
#[derive(Drop)]
pub struct Unmade<K> {
    pub disk: K,
    pub why: PageRefusal,
}

impl<K: Disk> PagedTables<K> {
    /// Puts these rows, which has one entry for each table of the catalog, on a disk without bytes, by one write a page. Nothing
    /// is pinned. So many pages at most are in the cache, which is empty. The disk is handed back where it fails.
    pub fn make(
        alloc: Global,
        catalog: Catalog,
        all: RowsList,
        disk: K,
        pages: NonZeroUsize,
    ) -> Result<PagedTables<K>, Unmade<K>>
        requires fits { is_database catalog.tables all ≡ true }
        requires empty { K.size disk ≡ 0 }
        ensures tables { IfOk result (λ s. s.catalog.tables ≡ catalog.tables) }
        ensures database { IfOk result (λ s. WhereTold (K.held s.disk) (λ held. tables_read s.headers.items held s.catalog.tables s.runs.items ≡ Some all)) }
        ensures told { IfOk result (λ s. ⟦<PagedTables<K> as Tables>⟧.database s ≡ option_map (λ _. all) (K.held disk)) }
        ensures bytes { IfOk result (λ s. WhereTold (K.held s.disk) (λ held. held ≡ disk_pages 0 all)) }
        ensures cached { IfOk result (λ s. s.pieces ≡ lru_cache [] (non_zero_usize_get pages)) }
        ensures released { IfOk result (λ s. (t : ℕ) → is_pinned s.pins.items t ≡ false) }
        ensures sound { IfOk result (λ s. s.broken ≡ 0) }
        ensures calls { IfOk result (λ s. Rises (K.calls disk) (K.calls s.disk) (length s.headers.items)) }
        ensures faults { IfOk result (λ s. min (K.faults disk) (2 ^ 64 - 1) ≤ ⟦<PagedTables<K> as Tables>⟧.faults s) }
        ensures failed { IfErr result (λ unmade. unmade.why ≡ PageRefusal.Failed → Rose (K.faults disk) (K.faults unmade.disk)) }
        ensures later { MatchResult result (λ s. K.faults disk ≤ K.faults s.disk) (λ unmade. K.faults disk ≤ K.faults unmade.disk) }
    {
        let mut disk = disk;
        let tables = catalog.tables.as_slice();
        match parts(alloc, &mut disk, tables, all.as_slice(), pages) {
            Ok(parts) => Ok(PagedTables {
                catalog,
                disk,
                pieces: parts.pieces,
                headers: parts.directory.headers,
                runs: parts.directory.runs,
                pins: parts.pins,
                broken: 0,
            }),
            Err(why) => Err(Unmade { disk, why }),
        }
    }

    /// The disk. Takes no memory. Where it tells its bytes, the faults of the tables are its own.
    pub fn into_disk(self) -> K
        ensures disk { result ≡ self.disk }
        ensures told { is_some (K.held result) ≡ is_some (⟦<PagedTables<K> as Tables>⟧.database self) }
        ensures faults { IfSome (K.held result) (λ _. ⟦<PagedTables<K> as Tables>⟧.faults self ≡ min (K.faults result) (2 ^ 64 - 1)) }
    {
        self.disk
    }
}

// Where the rows of a table lie.
fn run_at(runs: &[TableRun], at: usize) -> TableRun
    requires { at < length runs.now }
    ensures { slice_get runs.now at ≡ Some result }
{
    runs[at]
}

// The table at this place.
fn table_at(catalog: &Catalog, at: usize) -> &Table
    requires { at < length catalog.now.tables }
    ensures table { slice_get catalog.now.tables at ≡ Some result.now }
    ensures few { length result.now.columns ≤ 200 }
{
    &catalog.tables.as_slice()[at]
}

// Takes the rows of all tables away.
fn clear(pins: &mut Vec<Option<Rows>>)
    ensures none { (u : ℕ) → is_pinned pins.new.items u ≡ false }
    ensures places { length pins.new.items ≡ length pins.old.items }
{
    let mut at = 0;
    'places: while at < pins.len() {
        pins[at] = None;
        at += 1;
    }
}

impl<K: Disk> Tables for PagedTables<K> {
    ghost tables = { λ s. s.catalog.tables };

    ghost database = { λ s. option_and_then (λ held. tables_read s.headers.items held s.catalog.tables s.runs.items) (K.held s.disk) };

    ghost is_pinned = { λ s t. is_pinned s.pins.items t };

    ghost rows = { λ s t. pinned_rows s.pins.items t };

    ghost faults = { λ s. sum_of (K.faults s.disk) s.broken };

    fn catalog(&self) -> &Catalog {
        &self.catalog
    }

    /// Reads the table off the disk, but for the pages that are in the cache. A page that is not due, and pages that have
    /// not the table's rows, count as a fault.
    fn pin(&mut self, alloc: Global, t: TableId) -> Result<(), StoreRefusal>
        requires { t < length self.old.catalog.tables }
        ensures there { is_pinned self.old.pins.items t ≡ true → IsOk result }
        ensures disk_there { is_pinned self.old.pins.items t ≡ true → self.new.disk ≡ self.old.disk }
        ensures pieces_there { is_pinned self.old.pins.items t ≡ true → self.new.pieces ≡ self.old.pieces }
        ensures pins_there { is_pinned self.old.pins.items t ≡ true → self.new.pins ≡ self.old.pins }
        ensures broken_there { is_pinned self.old.pins.items t ≡ true → self.new.broken ≡ self.old.broken }
        ensures touched { OnOk result (is_pinned self.old.pins.items t ≡ false → Touches self.old.runs.items t self.old.pieces self.new.pieces) }
        ensures calls { OnOk result (is_pinned self.old.pins.items t ≡ false → Reads self.old.runs.items t self.old.pieces (K.calls self.old.disk) (K.calls self.new.disk)) }
        ensures touched_some { OnErr result (TouchesFirst self.old.runs.items t self.old.pieces self.new.pieces) }
        ensures held { K.held self.new.disk ≡ K.held self.old.disk }
        ensures cap { self.new.pieces.cap ≡ self.old.pieces.cap }
        ensures runs { self.new.runs ≡ self.old.runs }
        ensures headers { self.new.headers ≡ self.old.headers }

        // What the trait says.
        ensures pinned { OnOk result ((u : ℕ) → is_pinned self.new.pins.items u ≡ ((u == t) || is_pinned self.old.pins.items u)) }
        ensures refused { OnErr result ((u : ℕ) → is_pinned self.new.pins.items u ≡ is_pinned self.old.pins.items u) }
        ensures cause { IfErr result (λ e. TellsRise (sum_of (K.faults self.old.disk) self.old.broken) (sum_of (K.faults self.new.disk) self.new.broken) e) }
        ensures later { sum_of (K.faults self.old.disk) self.old.broken ≤ sum_of (K.faults self.new.disk) self.new.broken }
        ensures rows { (u : ℕ) → is_pinned self.old.pins.items u ≡ true → pinned_rows self.new.pins.items u ≡ pinned_rows self.old.pins.items u }
        ensures tables { self.new.catalog.tables ≡ self.old.catalog.tables }
        ensures database { ⟦<PagedTables<K> as Tables>⟧.database self.new ≡ ⟦<PagedTables<K> as Tables>⟧.database self.old }
    {
        let at = t.at();
        if self.pins[at].is_some() {
            return Ok(());
        }
        let before = self.disk.faults().saturating_add(self.broken);
        let run = run_at(&self.runs, at);
        let table = table_at(&self.catalog, at);
        let (pieces, disk) = (&mut self.pieces, &mut self.disk);
        match read_table(alloc, pieces, disk, &self.headers, run, table) {
            Ok(rows) => {
                self.pins[at] = Some(rows);
                return Ok(());
            }
            Err(TouchRefusal::Memory) => return Err(StoreRefusal::Memory),
            Err(TouchRefusal::Broken) => count_fault(&mut self.broken),
            Err(TouchRefusal::Failed) => {}
        }
        let after = self.disk.faults().saturating_add(self.broken);
        Err(StoreRefusal::Failed { before, after })
    }

    fn pinned(&self, t: TableId) -> &Rows {
        match &self.pins[t.at()] {
            Some(rows) => rows,
            None => unreachable!(),
        }
    }

    /// Leaves the disk and the cache as they are.
    fn release(&mut self)
        ensures disk { self.new.disk ≡ self.old.disk }
        ensures pieces { self.new.pieces ≡ self.old.pieces }
        ensures runs { self.new.runs ≡ self.old.runs }
        ensures headers { self.new.headers ≡ self.old.headers }

        // What the trait says.
        ensures released { (u : ℕ) → is_pinned self.new.pins.items u ≡ false }
        ensures faults { sum_of (K.faults self.new.disk) self.new.broken ≡ sum_of (K.faults self.old.disk) self.old.broken }
        ensures tables { self.new.catalog.tables ≡ self.old.catalog.tables }
        ensures database { ⟦<PagedTables<K> as Tables>⟧.database self.new ≡ ⟦<PagedTables<K> as Tables>⟧.database self.old }
    {
        clear(&mut self.pins);
    }

    /// The faults of the disk, and the pages that were not the due ones. Over a disk that tells its bytes there are none of
    /// these.
    fn faults(&self) -> u64
        ensures count { result ≡ sum_of (K.faults self.now.disk) self.now.broken }
        ensures told { WhereTold (K.held self.now.disk) (λ _. self.now.broken ≡ 0) }
    {
        self.disk.faults().saturating_add(self.broken)
    }

    ghost use Rattle.hq_load_pages.specs.StoreLaws.{pinned_read, pinned_valid, told_database};

    ghost catalog_fits = { λ s. s.catalog.valid };

    ghost database_fits = { λ s. told_database s.catalog.tables (K.held s.disk) (λ held. tables_read s.headers.items held s.catalog.tables s.runs.items) s.readable };

    ghost pinned_fits = { λ s t is. pinned_valid s.catalog.tables s.pins.items t s.fit is };

    ghost pinned_told = { λ s t is. pinned_read (K.held s.disk) (λ held. tables_read s.headers.items held s.catalog.tables s.runs.items) s.pins.items t s.told is };
}
