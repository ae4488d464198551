ghost use Rattle.std.specs.Prelude.{◌≡◌, ◌≢◌, ◌≤◌, length};
ghost use Rattle.hq_io.specs.Causes.{Rose};
ghost use Rattle.hq_http.specs.Connections.{IfBody};
ghost use Rattle.hq_responder.specs.Due.{is_due_of};

use hq_database::Database;
use hq_engine::{Engine, EngineRefusal};
use hq_http::Answer;
use hq_model::Session;
use std::alloc::Global;

/// The answer to a request of a session: the reply that is due, or that the database failed, or that memory is wanted.
pub fn answer_for<D: Database>(
    alloc: Global,
    engine: &Engine,
    session: &Session,
    body: &[u8],
    db: &mut D,
) -> Answer
    requires limit { length body.now ≤ 1048576 }
    requires catalog { D.tables db.old ≡ engine.now.catalog.tables }
    ensures body { IfBody result (is_due_of engine.now session.now (D.database db.old) body.now) }
    ensures denied { result ≢ Answer.Denied }
    ensures failed { result ≡ Answer.Failed → Rose (D.faults db.old) (D.faults db.new) }
    ensures tables { D.tables db.new ≡ D.tables db.old }
    ensures database { D.database db.new ≡ D.database db.old }
    ensures later { D.faults db.old ≤ D.faults db.new }
{
    match engine.answer(alloc, session, body, db) {
        Ok(reply) => Answer::Body(reply),
        Err(EngineRefusal::Database { .. }) => Answer::Failed,
        Err(EngineRefusal::Memory) => Answer::Memory,
    }
}
