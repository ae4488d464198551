//! Serving a directory over tables that are kept on a disk.
ghost use Rattle.std.specs.Prelude.{◌≡◌, ◌≤◌, ◌⊎◌, IfErr, IfSome, IsErrOf};
ghost use Rattle.hq_io.specs.Causes.{Rose};
ghost use Rattle.hq_model.specs.Meta.{meta_view};
ghost use Rattle.hq_command.specs.Ending.{NotDatabase};
ghost use Rattle.hq_command_serve.specs.Serving.{OpensOver, answer_of, seen_door};
ghost use Rattle.hq_command_paged.specs.Disks.{DiskLater, seen_disk};
ghost use Rattle.hq_command_paged.specs.Serving.{PagedServeEnds, ServesFrom};

use crate::OnDisk;
use crate::instance::{disk_of, on_disk};
use hq_base::Txt;
use hq_command::{Done, Instance, Refusal};
use hq_database::Database;
use hq_io::{Disk, Door, Files, Sink};
use hq_load::load;
use hq_load_pages::PagedTables;
use hq_responder::serve_by_secret;
use hq_serve::ServeRefusal;
use hq_session::SecretRule;
use hq_sql_database::SqlDb;
use std::alloc::Global;

// Opens a door at a port, and serves over tables that are kept on a disk, which is handed back.
fn serve_instance<X: Disk, D: Door, K: Sink>(
    alloc: Global,
    instance: Instance<PagedTables<X>>,
    rule: &SecretRule,
    port: u16,
    connections: u32,
    door: &mut D,
    out: &mut K,
) -> OnDisk<X, Result<(), ServeRefusal>>
    requires { ⟦<SqlDb<PagedTables<X>> as Database>⟧.tables instance.db ≡ instance.engine.catalog.tables }
    ensures opens { let before = seen_door (D.links door.old) (D.accepted door.old) (D.faults door.old) in
        let after = seen_door (D.links door.new) (D.accepted door.new) (D.faults door.new) in
        OpensOver before after (K.written out.old) (K.written out.new)
        (ServesFrom (record { left = D.Link.left; written = D.Link.written; read_faults = D.Link.read_faults; write_faults = D.Link.write_faults })
        rule.now connections before after (K.written out.old) (K.written out.new)
        (⟦<SqlDb<PagedTables<X>> as Database>⟧.faults instance.db) (seen_disk (X.held result.disk) (X.faults result.disk)) instance.engine.catalog.tables (meta_view instance.engine.meta)
        (⟦<SqlDb<PagedTables<X>> as Database>⟧.database instance.db)) result.answer }
    ensures door { IsErrOf result.answer ServeRefusal.DoorFailed → Rose (D.faults door.old) (D.faults door.new) }
    ensures write { IsErrOf result.answer ServeRefusal.WriteFailed → Rose (K.faults out.old) (K.faults out.new) }
    ensures disk_later { IfSome (X.held result.disk) (λ _. ⟦<SqlDb<PagedTables<X>> as Database>⟧.faults instance.db ≤ X.faults result.disk) }
    ensures door_later { D.faults door.old ≤ D.faults door.new }
    ensures out_later { K.faults out.old ≤ K.faults out.new }
{
    match door.listen(port) {
        Ok(()) => {
            let Instance { engine, db } = instance;
            let served = serve_by_secret(alloc, engine, db, rule, door, out, connections);
            OnDisk {
                disk: served.db.into_tables().into_disk(),
                answer: served.result,
            }
        }
        Err(refusal) => OnDisk {
            disk: disk_of(instance),
            answer: Err(refusal.into()),
        },
    }
}

// How serving ends the program.
fn ended(served: Result<(), ServeRefusal>) -> Result<Done, Refusal>
    ensures { result ≡ answer_of served }
{
    match served {
        Ok(()) => Ok(Done::Answered),
        Err(refusal) => Err(refusal.into()),
    }
}

/// Loads a directory, puts its tables on the disk, opens a door at a port, and serves so many connections, one after the other,
/// with a line for each. The disk is handed back.
pub fn serve_on_disk<F: Files, X: Disk, D: Door, K: Sink>(
    alloc: Global,
    dir: &Txt,
    rule: &SecretRule,
    port: u16,
    connections: u32,
    files: &mut F,
    disk: X,
    door: &mut D,
    out: &mut K,
) -> OnDisk<X, Result<Done, Refusal>>
    ensures ends { PagedServeEnds (record { left = D.Link.left; written = D.Link.written; read_faults = D.Link.read_faults; write_faults = D.Link.write_faults })
        rule.now connections (seen_door (D.links door.old) (D.accepted door.old) (D.faults door.old)) (seen_door (D.links door.new) (D.accepted door.new) (D.faults door.new))
        (K.written out.old) (K.written out.new)
        (seen_disk (X.held disk) (X.faults disk)) (seen_disk (X.held result.disk) (X.faults result.disk)) (F.folder files.old) dir.now result.answer }
    ensures words { IsErrOf result.answer Refusal.BadWords → ⊥ }
    ensures read { IsErrOf result.answer Refusal.ReadFailed →
        (Rose (F.faults files.old) (F.faults files.new) ⊎ Rose (X.faults disk) (X.faults result.disk)) × (D.links door.new ≡ D.links door.old) × (D.accepted door.new ≡ D.accepted door.old)
        ⊎ Rose (D.faults door.old) (D.faults door.new) }
    ensures write { IsErrOf result.answer Refusal.WriteFailed → Rose (K.faults out.old) (K.faults out.new) }
    ensures failed { IfErr result.answer NotDatabase }
    ensures folder { F.folder files.new ≡ F.folder files.old }
    ensures files_later { F.faults files.old ≤ F.faults files.new }
    ensures disk_later { DiskLater (seen_disk (X.held disk) (X.faults disk)) (seen_disk (X.held result.disk) (X.faults result.disk)) }
    ensures door_later { D.faults door.old ≤ D.faults door.new }
    ensures out_later { K.faults out.old ≤ K.faults out.new }
{
    match load(alloc, files, dir) {
        Ok(loaded) => match on_disk(alloc, loaded, dir, disk) {
            Ok(made) => {
                let served = serve_instance(alloc, made, rule, port, connections, door, out);
                OnDisk {
                    disk: served.disk,
                    answer: ended(served.answer),
                }
            }
            Err(unmade) => OnDisk {
                disk: unmade.disk,
                answer: Err(unmade.why.into()),
            },
        },
        Err(refusal) => OnDisk {
            disk,
            answer: Err(refusal.into()),
        },
    }
}
