ghost use Rattle.std.specs.Prelude.{◌≡◌, ◌≤◌, IsErrOf};
ghost use Rattle.hq_io.specs.Causes.{Rose};
ghost use Rattle.hq_serve.specs.Serving.{Serves};
ghost use Rattle.hq_model.specs.Meta.{meta_view};
ghost use Rattle.hq_responder.specs.Due.{denies, gives};

use crate::EngineResponder;
use hq_database::Database;
use hq_engine::Engine;
use hq_io::{Door, Sink};
use hq_serve::{ServeRefusal, serve};
use hq_session::{Headers, Hook, SecretRule};
use std::alloc::Global;

/// How serving ended, and the database over which requests were answered.
#[derive(Drop)]
pub struct Served<B> {
    pub db: B,
    pub result: Result<(), ServeRefusal>,
}

/// Serves so many connections of a door that listens, one after the other, with a line for each. Who the caller is is told
/// by the rule of an admin secret, and the replies are those of the engine over a database of its catalog, which is handed back.
pub fn serve_by_secret<B: Database, D: Door, K: Sink>(
    alloc: Global,
    engine: Engine,
    db: B,
    rule: &SecretRule,
    door: &mut D,
    out: &mut K,
    connections: u32,
) -> Served<B>
    requires { B.tables db ≡ engine.catalog.tables }

    // Which links were served, how, and what was written after them. The database's count of faults rose so often at least as
    // a reply says that it failed.
    ensures serves { Serves (denies rule.now) (gives rule.now engine.catalog.tables (meta_view engine.meta) (B.database db))
        (record { left = D.Link.left; written = D.Link.written; read_faults = D.Link.read_faults; write_faults = D.Link.write_faults }) connections
        (D.accepted door.old) (D.accepted door.new) (D.links door.old) (D.links door.new) (B.faults db) (B.faults result.db) (K.written out.old) (K.written out.new) result.result }

    // A failure is told only where that count rose, and no count falls.
    ensures door { IsErrOf result.result ServeRefusal.DoorFailed → Rose (D.faults door.old) (D.faults door.new) }
    ensures write { IsErrOf result.result ServeRefusal.WriteFailed → Rose (K.faults out.old) (K.faults out.new) }
    ensures door_later { D.faults door.old ≤ D.faults door.new }
    ensures out_later { K.faults out.old ≤ K.faults out.new }
{
    let hook = Hook::new(rule, |headers: &Headers| rule.decide(alloc, headers));
    let mut responder = EngineResponder { engine, hook, db };
    let result = serve(alloc, door, &mut responder, out, connections);
    Served {
        db: responder.db,
        result,
    }
}
