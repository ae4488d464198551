ghost use Rattle.std.specs.Prelude.{◌≡◌, ◌≤◌, true, length, IfOk, IfErr, IsErrOf, Some};
ghost use Rattle.hq_io.specs.Causes.{Rose};
ghost use Rattle.hq_model.specs.Database.{is_database};
ghost use Rattle.hq_model.specs.Meta.{meta_view};
ghost use Rattle.hq_live.specs.Asking.{GaveReply, KeepsFiles, Reloads};
ghost use Rattle.hq_live_asker.specs.Asker.{due_of, next_of, sum, NeverFails, FailsFor, IsRead, IsUnread};

use hq_base::{Memory, Txt};
use hq_database::Database;
use hq_engine::{Engine, EngineRefusal};
use hq_io::{Files, count_fault};
use hq_live::{Asked, Asker, Reloaded};
use hq_load::{LoadingRefusal, load_tables};
use hq_load_tables::{MemTables, RowsList};
use hq_model::{Catalog, Session};
use hq_sql_database::SqlDb;
use std::alloc::Global;

/// Answers requests by the engine over a database in memory, and reads its table files again. `refused` counts the readings that a
/// file was refused in.
#[derive(Drop)]
pub struct EngineAsker<F> {
    pub engine: Engine,
    pub db: SqlDb<MemTables>,
    pub files: F,
    pub dir: Txt,
    pub refused: u64,
    ghost catalog: { ⟦<SqlDb<MemTables> as Database>⟧.tables db ≡ engine.catalog.tables },
}

// A database of a catalog with these rows.
fn database(alloc: Global, catalog: &Catalog, rows: RowsList) -> Result<SqlDb<MemTables>, Memory>
    requires { is_database catalog.now.tables rows ≡ true }
    ensures tables { IfOk result (λ db. ⟦<SqlDb<MemTables> as Database>⟧.tables db ≡ catalog.now.tables) }
    ensures rows { IfOk result (λ db. ⟦<SqlDb<MemTables> as Database>⟧.database db ≡ Some rows) }
{
    Ok(SqlDb::new(MemTables::new(catalog.copy(alloc)?, rows)))
}

// A database of the rows of the table files.
fn read<F: Files>(
    alloc: Global,
    engine: &Engine,
    files: &mut F,
    dir: &Txt,
) -> Result<SqlDb<MemTables>, LoadingRefusal>
    ensures tables { IfOk result (λ db. ⟦<SqlDb<MemTables> as Database>⟧.tables db ≡ engine.now.catalog.tables) }
    ensures rows { IfOk result (λ db. IsRead engine.now.catalog.tables (F.folder files.old) dir.now (⟦<SqlDb<MemTables> as Database>⟧.database db)) }
    ensures refused { IfErr result (IsUnread engine.now.catalog.tables (F.folder files.old) dir.now) }
    ensures failed { IsErrOf result LoadingRefusal.Failed → Rose (F.faults files.old) (F.faults files.new) }
    ensures folder { F.folder files.new ≡ F.folder files.old }
    ensures later { F.faults files.old ≤ F.faults files.new }
{
    let rows = load_tables(alloc, files, dir, engine.catalog.tables.as_slice())?;
    Ok(database(alloc, &engine.catalog, rows)?)
}

impl<F: Files> EngineAsker<F> {
    // How often the files have failed, and a reading was refused.
    fn failures(&self) -> u64
        ensures { result ≡ sum (F.faults self.now.files) self.now.refused }
    {
        self.files.faults().saturating_add(self.refused)
    }
}

impl<F: Files> Asker for EngineAsker<F> {
    ghost due = { λ a. due_of a.engine.catalog.tables (meta_view a.engine.meta) (⟦<SqlDb<MemTables> as Database>⟧.database a.db) };

    ghost next = { λ a. next_of a.engine.catalog.tables (meta_view a.engine.meta) (F.folder a.files) a.dir };

    // A database in memory never fails.
    ghost faults = { λ a. sum (F.faults a.files) a.refused };

    ghost reads = { λ folder faults a. (F.folder a.files ≡ folder) × (faults ≤ F.faults a.files) };

    /// Never fails.
    fn ask(&mut self, alloc: Global, session: &Session, body: &[u8]) -> Asked
        requires { length body.now ≤ 1048576 }
        ensures asked { GaveReply (⟦<EngineAsker<F> as Asker>⟧.due self.old session.now body.now) (⟦<EngineAsker<F> as Asker>⟧.faults self.old) (⟦<EngineAsker<F> as Asker>⟧.faults self.new) result }
        ensures due { ⟦<EngineAsker<F> as Asker>⟧.due self.new ≡ ⟦<EngineAsker<F> as Asker>⟧.due self.old }
        ensures next { ⟦<EngineAsker<F> as Asker>⟧.next self.new ≡ ⟦<EngineAsker<F> as Asker>⟧.next self.old }
        ensures files { KeepsFiles (⟦<EngineAsker<F> as Asker>⟧.reads) self.old self.new }
        ensures later { ⟦<EngineAsker<F> as Asker>⟧.faults self.old ≤ ⟦<EngineAsker<F> as Asker>⟧.faults self.new }
        ensures never { NeverFails result }
    {
        match self.engine.answer(alloc, session, body, &mut self.db) {
            Ok(reply) => Asked::Reply(reply.body),
            Err(EngineRefusal::Memory | EngineRefusal::Database { .. }) => Asked::Memory,
        }
    }

    /// Reads the table files. The database that is present stays until the new one is whole. Fails where the files do, and where one
    /// of them is refused.
    fn reload(&mut self, alloc: Global) -> Reloaded
        ensures reloaded { Reloads (⟦<EngineAsker<F> as Asker>⟧.due self.old) (⟦<EngineAsker<F> as Asker>⟧.due self.new)
            (⟦<EngineAsker<F> as Asker>⟧.next self.old) (⟦<EngineAsker<F> as Asker>⟧.next self.new)
            (⟦<EngineAsker<F> as Asker>⟧.faults self.old) (⟦<EngineAsker<F> as Asker>⟧.faults self.new) result }
        ensures files { KeepsFiles (⟦<EngineAsker<F> as Asker>⟧.reads) self.old self.new }
        ensures later { ⟦<EngineAsker<F> as Asker>⟧.faults self.old ≤ ⟦<EngineAsker<F> as Asker>⟧.faults self.new }
        ensures failed { FailsFor self.old.engine.catalog.tables (F.folder self.old.files) self.old.dir (F.faults self.old.files) (F.faults self.new.files) self.old.refused self.new.refused result }
    {
        let before = self.failures();
        match read(alloc, &self.engine, &mut self.files, &self.dir) {
            Ok(db) => {
                self.db = db;
                Reloaded::New
            }
            Err(LoadingRefusal::Memory) => Reloaded::Memory,
            Err(LoadingRefusal::Failed) => Reloaded::Failed {
                before,
                after: self.failures(),
            },
            Err(LoadingRefusal::File { .. }) => {
                count_fault(&mut self.refused);
                Reloaded::Failed {
                    before,
                    after: self.failures(),
                }
            }
        }
    }
}
