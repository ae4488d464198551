ghost use Rattle.std.specs.Prelude.{◌≡◌, ◌≤◌, ◌⊎◌, [], IfErr, IsErrOf};
ghost use Rattle.hq_io.specs.Causes.{Rose};
ghost use Rattle.hq_model.specs.Meta.{meta_view};
ghost use Rattle.hq_load.specs.Loading.{contents};
ghost use Rattle.hq_live.specs.Runs.{standing};
ghost use Rattle.hq_live_asker.specs.Asker.{due_of, next_of, sum};
ghost use Rattle.hq_command.specs.Ending.{NotDatabase};
ghost use Rattle.hq_command_live.specs.Living.{LiveEnds, TalksFrom, TalksOver};
ghost use Rattle.hq_command_serve.specs.Serving.{OpensOver, answer_of, seen_door};

use hq_base::{Memory, Txt};
use hq_command::{Done, Instance, Refusal};
use hq_database::Database;
use hq_io::{Files, Sink};
use hq_live::{Asker, Live};
use hq_live_asker::EngineAsker;
use hq_live_serve::serve_talks;
use hq_load::{Loaded, load};
use hq_load_tables::MemTables;
use hq_messages::{Hall, Messages};
use hq_serve::ServeRefusal;
use hq_session::{Headers, Hook, SecretRule};
use hq_sql_database::SqlDb;
use std::alloc::Global;

/// What comes of a command that files were handed to, and the files.
#[derive(Drop)]
pub struct WithFiles<F, A> {
    pub files: F,
    pub answer: A,
}

// Talks with so many peers of a hall that listens, by the rule of an admin secret.
fn hold_talks<F: Files, H: Hall, K: Sink>(
    alloc: Global,
    asker: EngineAsker<F>,
    rule: &SecretRule,
    connections: u32,
    hall: &mut H,
    out: &mut K,
) -> WithFiles<F, Result<(), ServeRefusal>>
    ensures talks { TalksFrom (record { left = H.Talk.left; sent = H.Talk.sent; faults = H.Talk.faults }) rule.now connections
        (seen_door (H.talks hall.old) (H.accepted hall.old) (H.faults hall.old)) (seen_door (H.talks hall.new) (H.accepted hall.new) (H.faults hall.new)) (K.written out.old) (K.written out.new)
        (standing (⟦<EngineAsker<F> as Asker>⟧.due asker) (⟦<EngineAsker<F> as Asker>⟧.next asker) (⟦<EngineAsker<F> as Asker>⟧.faults asker) []) result.answer }
    ensures hall { IsErrOf result.answer ServeRefusal.DoorFailed → Rose (H.faults hall.old) (H.faults hall.new) }
    ensures write { IsErrOf result.answer ServeRefusal.WriteFailed → Rose (K.faults out.old) (K.faults out.new) }
    ensures folder { F.folder result.files ≡ F.folder asker.files }
    ensures files_later { F.faults asker.files ≤ F.faults result.files }
    ensures hall_later { H.faults hall.old ≤ H.faults hall.new }
    ensures out_later { K.faults out.old ≤ K.faults out.new }
{
    let hook = Hook::new(rule, |headers: &Headers| rule.decide(alloc, headers));
    let mut live = Live::new(alloc, asker);
    let answer = serve_talks(alloc, hall, &mut live, &hook, out, connections);
    WithFiles {
        files: live.into_asker().files,
        answer,
    }
}

// Opens a hall at a port, and talks over an instance, whose table files are in these files.
fn live_instance<F: Files, H: Hall, K: Sink>(
    alloc: Global,
    instance: Instance<MemTables>,
    dir: Txt,
    rule: &SecretRule,
    port: u16,
    connections: u32,
    files: F,
    hall: &mut H,
    out: &mut K,
) -> WithFiles<F, Result<(), ServeRefusal>>
    requires { ⟦<SqlDb<MemTables> as Database>⟧.tables instance.db ≡ instance.engine.catalog.tables }
    ensures opens { let before = seen_door (H.talks hall.old) (H.accepted hall.old) (H.faults hall.old) in
        let after = seen_door (H.talks hall.new) (H.accepted hall.new) (H.faults hall.new) in
        OpensOver before after (K.written out.old) (K.written out.new)
        (TalksFrom (record { left = H.Talk.left; sent = H.Talk.sent; faults = H.Talk.faults }) rule.now connections
        before after (K.written out.old) (K.written out.new)
        (standing (due_of instance.engine.catalog.tables (meta_view instance.engine.meta) (⟦<SqlDb<MemTables> as Database>⟧.database instance.db))
        (next_of instance.engine.catalog.tables (meta_view instance.engine.meta) (F.folder files) dir) (sum (F.faults files) 0) [])) result.answer }
    ensures hall { IsErrOf result.answer ServeRefusal.DoorFailed → Rose (H.faults hall.old) (H.faults hall.new) }
    ensures write { IsErrOf result.answer ServeRefusal.WriteFailed → Rose (K.faults out.old) (K.faults out.new) }
    ensures folder { F.folder result.files ≡ F.folder files }
    ensures files_later { F.faults files ≤ F.faults result.files }
    ensures hall_later { H.faults hall.old ≤ H.faults hall.new }
    ensures out_later { K.faults out.old ≤ K.faults out.new }
{
    if hall.listen(port).is_err() {
        return WithFiles {
            files,
            answer: Err(ServeRefusal::DoorFailed),
        };
    }
    let Instance { engine, db } = instance;
    let asker = EngineAsker {
        engine,
        db,
        files,
        dir,
        refused: 0,
    };
    hold_talks(alloc, asker, rule, connections, hall, out)
}

// Opens a hall at a port, and talks over what a directory holds.
fn live_loaded<F: Files, H: Hall, K: Sink>(
    alloc: Global,
    loaded: Loaded,
    dir: Txt,
    rule: &SecretRule,
    port: u16,
    connections: u32,
    files: F,
    hall: &mut H,
    out: &mut K,
) -> WithFiles<F, Result<(), ServeRefusal>>
    ensures opens { let before = seen_door (H.talks hall.old) (H.accepted hall.old) (H.faults hall.old) in
        let after = seen_door (H.talks hall.new) (H.accepted hall.new) (H.faults hall.new) in
        OpensOver before after (K.written out.old) (K.written out.new)
        (TalksOver (record { left = H.Talk.left; sent = H.Talk.sent; faults = H.Talk.faults }) rule.now connections
        before after (K.written out.old) (K.written out.new)
        (F.folder files) dir (contents loaded.catalog.tables (meta_view loaded.meta) loaded.rows)) result.answer }
    ensures hall { IsErrOf result.answer ServeRefusal.DoorFailed → Rose (H.faults hall.old) (H.faults hall.new) }
    ensures write { IsErrOf result.answer ServeRefusal.WriteFailed → Rose (K.faults out.old) (K.faults out.new) }
    ensures folder { F.folder result.files ≡ F.folder files }
    ensures files_later { F.faults files ≤ F.faults result.files }
    ensures hall_later { H.faults hall.old ≤ H.faults hall.new }
    ensures out_later { K.faults out.old ≤ K.faults out.new }
{
    let Loaded {
        catalog,
        meta,
        rows,
    } = loaded;
    match Instance::over(alloc, catalog, meta, rows) {
        Ok(instance) => live_instance(
            alloc,
            instance,
            dir,
            rule,
            port,
            connections,
            files,
            hall,
            out,
        ),
        Err(Memory) => WithFiles {
            files,
            answer: Err(ServeRefusal::Memory),
        },
    }
}

// How talks end the program.
fn ended(held: Result<(), ServeRefusal>) -> Result<Done, Refusal>
    ensures { result ≡ answer_of held }
{
    match held {
        Ok(()) => Ok(Done::Answered),
        Err(refusal) => Err(refusal.into()),
    }
}

/// Loads a directory, opens a hall at a port, and talks with so many peers of live queries over the directory, one after the other,
/// with a line for each. At a peer's ping the table files are read again. The files are handed back.
pub fn live<F: Files, H: Hall, K: Sink>(
    alloc: Global,
    dir: Txt,
    rule: &SecretRule,
    port: u16,
    connections: u32,
    files: F,
    hall: &mut H,
    out: &mut K,
) -> WithFiles<F, Result<Done, Refusal>>
    ensures ends { LiveEnds (record { left = H.Talk.left; sent = H.Talk.sent; faults = H.Talk.faults }) rule.now connections
        (seen_door (H.talks hall.old) (H.accepted hall.old) (H.faults hall.old)) (seen_door (H.talks hall.new) (H.accepted hall.new) (H.faults hall.new)) (K.written out.old) (K.written out.new)
        (F.folder files) dir result.answer }
    ensures words { IsErrOf result.answer Refusal.BadWords → ⊥ }
    ensures read { IsErrOf result.answer Refusal.ReadFailed →
        Rose (F.faults files) (F.faults result.files) × (H.talks hall.new ≡ H.talks hall.old) × (H.accepted hall.new ≡ H.accepted hall.old)
        ⊎ Rose (H.faults hall.old) (H.faults hall.new) }
    ensures write { IsErrOf result.answer Refusal.WriteFailed → Rose (K.faults out.old) (K.faults out.new) }
    ensures failed { IfErr result.answer NotDatabase }
    ensures folder { F.folder result.files ≡ F.folder files }
    ensures files_later { F.faults files ≤ F.faults result.files }
    ensures hall_later { H.faults hall.old ≤ H.faults hall.new }
    ensures out_later { K.faults out.old ≤ K.faults out.new }
{
    let mut files = files;
    match load(alloc, &mut files, &dir) {
        Ok(loaded) => {
            let held = live_loaded(
                alloc,
                loaded,
                dir,
                rule,
                port,
                connections,
                files,
                hall,
                out,
            );
            WithFiles {
                files: held.files,
                answer: ended(held.answer),
            }
        }
        Err(refusal) => WithFiles {
            files,
            answer: Err(refusal.into()),
        },
    }
}
