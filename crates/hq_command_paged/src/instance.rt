//! An engine, and a database whose tables are kept on a disk.
ghost use Rattle.std.specs.Prelude.{◌≡◌, ◌≤◌, ◌-◌, ◌^◌, is_some, min, codes, IfOk, IfErr, IfSome, OnOk, IsErrOf};
ghost use Rattle.std.specs.NonZero.{non_zero_usize_get};
ghost use Rattle.hq_load.specs.Directory.{path_in};
ghost use Rattle.hq_io.specs.Causes.{Rose};
ghost use Rattle.hq_model.specs.Meta.{meta_view};
ghost use Rattle.hq_command_paged.specs.Disks.{told_rows};

use hq_base::{Memory, Txt};
use hq_command::{Instance, engine_over};
use hq_database::Database;
use hq_io::Disk;
use hq_load::Loaded;
use hq_load_pages::{PageRefusal, PagedTables, Unmade};
use hq_sql_database::SqlDb;
use std::alloc::Global;
use std::num::NonZeroUsize;

// The most pages that are in memory between two requests.
fn cached_pages() -> NonZeroUsize
    ensures { non_zero_usize_get result ≡ 64 }
{
    NonZeroUsize::new(64).unwrap()
}

// The name under which a disk keeps the tables of a directory.
fn pages_file(alloc: Global, dir: &Txt) -> Result<Txt, Memory>
    ensures { IfOk result (λ name. name ≡ path_in dir.now (codes "hq.pages")) }
{
    let mut name = dir.copy(alloc)?;
    name.push_str("/hq.pages")?;
    Ok(name)
}

// Begins the disk anew, for the tables of a directory.
fn start<X: Disk>(alloc: Global, disk: &mut X, dir: &Txt) -> Result<(), PageRefusal>
    ensures empty { OnOk result (X.size disk.new ≡ 0) }
    ensures told { OnOk result (is_some (X.held disk.new) ≡ is_some (X.held disk.old)) }
    ensures failed { IsErrOf result PageRefusal.Failed → Rose (X.faults disk.old) (X.faults disk.new) }
    ensures later { X.faults disk.old ≤ X.faults disk.new }
{
    let name = pages_file(alloc, dir)?;
    disk.start(&name)?;
    Ok(())
}

/// An engine for what a directory holds, and a database whose tables are kept on the disk, in pages. The disk is handed back
/// where it fails.
pub fn on_disk<X: Disk>(
    alloc: Global,
    loaded: Loaded,
    dir: &Txt,
    disk: X,
) -> Result<Instance<PagedTables<X>>, Unmade<X>>
    ensures catalog { IfOk result (λ made. made.engine.catalog.tables ≡ loaded.catalog.tables) }
    ensures meta { IfOk result (λ made. meta_view made.engine.meta ≡ meta_view loaded.meta) }
    ensures tables { IfOk result (λ made. ⟦<SqlDb<PagedTables<X>> as Database>⟧.tables made.db ≡ loaded.catalog.tables) }
    ensures rows { IfOk result (λ made. ⟦<SqlDb<PagedTables<X>> as Database>⟧.database made.db ≡ told_rows (X.held disk) loaded.rows) }
    ensures faults { IfOk result (λ made. X.faults disk ≤ ⟦<SqlDb<PagedTables<X>> as Database>⟧.faults made.db) }
    ensures failed { IfErr result (λ unmade. unmade.why ≡ PageRefusal.Failed → Rose (X.faults disk) (X.faults unmade.disk)) }
    ensures later { IfErr result (λ unmade. X.faults disk ≤ X.faults unmade.disk) }
{
    let mut disk = disk;
    // That the count fits 64 bits is known from here.
    let _faults = disk.faults();
    let Loaded {
        catalog,
        meta,
        rows,
    } = loaded;
    if let Err(why) = start(alloc, &mut disk, dir) {
        return Err(Unmade { disk, why });
    }
    match engine_over(alloc, &catalog, meta) {
        Ok(engine) => match PagedTables::make(alloc, catalog, rows, disk, cached_pages()) {
            Ok(tables) => Ok(Instance {
                engine,
                db: SqlDb::new(tables),
            }),
            Err(unmade) => Err(unmade),
        },
        Err(Memory) => Err(Unmade {
            disk,
            why: PageRefusal::Memory,
        }),
    }
}

/// The disk. Where it tells its bytes, the faults of the database are its own.
pub fn disk_of<X: Disk>(instance: Instance<PagedTables<X>>) -> X
    ensures told { is_some (X.held result) ≡ is_some (⟦<SqlDb<PagedTables<X>> as Database>⟧.database instance.db) }
    ensures faults { IfSome (X.held result) (λ _. ⟦<SqlDb<PagedTables<X>> as Database>⟧.faults instance.db ≡ min (X.faults result) (2 ^ 64 - 1)) }
{
    instance.db.into_tables().into_disk()
}
