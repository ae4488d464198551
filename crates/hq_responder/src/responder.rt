use crate::reply::answer_for;
use hq_database::Database;
use hq_engine::Engine;
use hq_http::{Answer, Responder};
use hq_session::{Headers, Hook, HookAnswer, HookRule};
use std::alloc::Global;

/// Answers requests for the session that its hook tells, by the engine, over a database of the engine's catalog.
#[derive(Drop)]
pub struct EngineResponder<P, F, D> {
    pub engine: Engine,
    pub hook: Hook<P, F>,
    pub db: D,
}

impl<P: HookRule, F: Fn(&Headers) -> HookAnswer, D: Database> Responder
    for EngineResponder<P, F, D> {
    ghost use Rattle.hq_session.specs.declared.hook.HookAnswer.TheVariants as answer;
    ghost use Rattle.hq_responder.specs.Due.{IsReady, MayGive};
    ghost use Rattle.hq_model.specs.Meta.{meta_view};
    ghost use Rattle.hq_request.specs.Request.{request_due};
    ghost use Rattle.hq_responder.specs.Laws.{status_known};

    ghost ready = { λ r. IsReady F.Fn P.allows D.tables r };

    ghost may_deny = { λ r headers. P.allows r.hook.rule headers answer.Denied };

    ghost may_give = { λ r headers body reply. MayGive P.allows r.hook.rule r.engine (D.database r.db) headers body reply };

    ghost faults = { λ r. D.faults r.db };

    /// Asks the hook who the caller is, once, and then the engine.
    fn respond(&mut self, alloc: Global, headers: &Headers, body: &[u8]) -> Answer {
        match self.hook.ask(headers) {
            HookAnswer::Session(session) => {
                answer_for(alloc, &self.engine, &session, body, &mut self.db)
            }
            HookAnswer::Denied => Answer::Denied,
            HookAnswer::Memory => Answer::Memory,
        }
    }

    ghost status_is_known = { λ r headers body reply given. status_known r.engine.catalog.tables (meta_view r.engine.meta) given.0 (D.database r.db)
        (request_due r.engine.catalog.tables (meta_view r.engine.meta) given.0 body) reply given.2.due };
}
