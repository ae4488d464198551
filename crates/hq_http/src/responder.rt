ghost use Rattle.std.specs.Prelude.{◌≡◌, ◌≤◌, ℕ, List, length};
ghost use Rattle.hq_base.specs.declared.reply.Reply.{Reply};
ghost use Rattle.hq_session.specs.declared.header.Header.{Header};
ghost use Rattle.hq_io.specs.Causes.{Rose};
ghost use Rattle.hq_http.specs.Connections.{IfBody};

use hq_base::Reply;
use hq_session::Headers;
use std::alloc::Global;

/// What a responder answers.
#[derive(Drop)]
pub enum Answer {
    Body(Reply),
    /// The caller is nobody who may ask.
    Denied,
    /// The responder failed, and its count of faults rose.
    Failed,
    Memory,
}

/// Answers the requests of a connection.
pub trait Responder {
    /// Whether it may be asked. That it was made well travels here, where its fields can't keep it.
    ghost ready: { Self → Type 0 };

    /// Whether it may deny a request with these headers.
    ghost may_deny: { Self → List Header → Type 0 };

    /// Which replies it may give to these headers and this body.
    ghost may_give: { Self → List Header → (body : List ℕ) → Reply → Type 0 };

    /// How often it has failed.
    ghost faults: { Self → ℕ };

    /// Answers the request with these headers and this body. What it may answer stays as it was.
    fn respond(&mut self, alloc: Global, headers: &Headers, body: &[u8]) -> Answer
        requires ready { ready self.old }
        requires small { length body.now ≤ 1048576 }
        ensures ready { ready self.new }
        ensures denied { result ≡ Answer.Denied → may_deny self.old headers.now }
        ensures body { IfBody result (may_give self.old headers.now body.now) }
        ensures failed { result ≡ Answer.Failed → Rose (faults self.old) (faults self.new) }
        ensures later { faults self.old ≤ faults self.new }
        ensures same_deny { (headers : List Header) → may_deny self.new headers → may_deny self.old headers }
        ensures same_give { (headers : List Header) (body : List ℕ) (reply : Reply) → may_give self.new headers body reply → may_give self.old headers body reply };

    /// Each reply has the status 200.
    ghost status_is_known: { (responder : Self) (headers : List Header) (body : List ℕ) (reply : Reply) → may_give responder headers body reply → reply.status ≡ 200 };
}
