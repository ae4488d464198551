//! Serving a directory.
ghost use Rattle.std.specs.Prelude.{◌≡◌, ◌≤◌, ◌⊎◌, IfErr, IsErrOf};
ghost use Rattle.hq_io.specs.Causes.{Rose};
ghost use Rattle.hq_model.specs.Meta.{meta_view};
ghost use Rattle.hq_load.specs.Loading.{contents};
ghost use Rattle.hq_command.specs.Ending.{NotDatabase};
ghost use Rattle.hq_command_serve.specs.Serving.{OpensOver, ServeEnds, ServesOver, seen_door};

use hq_base::Txt;
use hq_command::{Done, Instance, Refusal};
use hq_io::{Door, Files, Sink};
use hq_load::{Loaded, load};
use hq_responder::serve_by_secret;
use hq_serve::ServeRefusal;
use hq_session::SecretRule;
use std::alloc::Global;

// Opens a door at a port, and serves what a directory holds.
fn serve_loaded<D: Door, K: Sink>(
    alloc: Global,
    loaded: Loaded,
    rule: &SecretRule,
    port: u16,
    connections: u32,
    door: &mut D,
    out: &mut K,
) -> Result<(), ServeRefusal>
    ensures opens { let before = seen_door (D.links door.old) (D.accepted door.old) (D.faults door.old) in
        let after = seen_door (D.links door.new) (D.accepted door.new) (D.faults door.new) in
        OpensOver before after (K.written out.old) (K.written out.new)
        (ServesOver (record { left = D.Link.left; written = D.Link.written; read_faults = D.Link.read_faults; write_faults = D.Link.write_faults })
        rule.now connections before after (K.written out.old) (K.written out.new)
        (contents loaded.catalog.tables (meta_view loaded.meta) loaded.rows)) result }
    ensures door { IsErrOf result ServeRefusal.DoorFailed → Rose (D.faults door.old) (D.faults door.new) }
    ensures write { IsErrOf result ServeRefusal.WriteFailed → Rose (K.faults out.old) (K.faults out.new) }
    ensures door_later { D.faults door.old ≤ D.faults door.new }
    ensures out_later { K.faults out.old ≤ K.faults out.new }
{
    let Loaded {
        catalog,
        meta,
        rows,
    } = loaded;
    let instance = Instance::over(alloc, catalog, meta, rows)?;
    door.listen(port)?;
    let Instance { engine, db } = instance;
    serve_by_secret(alloc, engine, db, rule, door, out, connections).result
}

/// Loads a directory, opens a door at a port, and serves so many connections, one after the other, with a line for each.
pub fn serve<F: Files, D: Door, K: Sink>(
    alloc: Global,
    dir: &Txt,
    rule: &SecretRule,
    port: u16,
    connections: u32,
    files: &mut F,
    door: &mut D,
    out: &mut K,
) -> Result<Done, Refusal>
    ensures ends { ServeEnds (record { left = D.Link.left; written = D.Link.written; read_faults = D.Link.read_faults; write_faults = D.Link.write_faults })
        rule.now connections (seen_door (D.links door.old) (D.accepted door.old) (D.faults door.old)) (seen_door (D.links door.new) (D.accepted door.new) (D.faults door.new))
        (K.written out.old) (K.written out.new) (F.folder files.old) dir.now result }
    ensures words { IsErrOf result Refusal.BadWords → ⊥ }
    ensures read { IsErrOf result Refusal.ReadFailed →
        Rose (F.faults files.old) (F.faults files.new) × (D.links door.new ≡ D.links door.old) × (D.accepted door.new ≡ D.accepted door.old)
        ⊎ Rose (D.faults door.old) (D.faults door.new) }
    ensures write { IsErrOf result Refusal.WriteFailed → Rose (K.faults out.old) (K.faults out.new) }
    ensures failed { IfErr result NotDatabase }
    ensures folder { F.folder files.new ≡ F.folder files.old }
    ensures files_later { F.faults files.old ≤ F.faults files.new }
    ensures door_later { D.faults door.old ≤ D.faults door.new }
    ensures out_later { K.faults out.old ≤ K.faults out.new }
{
    let loaded = load(alloc, files, dir)?;
    serve_loaded(alloc, loaded, rule, port, connections, door, out)?;
    Ok(Done::Answered)
}
