ghost use Rattle.std.specs.Prelude.{◌≡◌, IfOk};
ghost use Rattle.hq_session.specs.Sessions.{session_of};

use hq_base::Memory;
use hq_model::Session;
use hq_session::{Headers, HookAnswer, SecretRule};
use std::alloc::Global;

/// The session of a caller with these headers, where no secret is set.
pub fn caller(alloc: Global, headers: &Headers) -> Result<Session, Memory>
    ensures { IfOk result (λ session. session ≡ session_of headers.now) }
{
    let rule = SecretRule {
        secret: None,
        unauthorized: None,
    };
    match rule.decide(alloc, headers) {
        HookAnswer::Session(session) => Ok(session),
        // A rule without a secret denies nobody.
        HookAnswer::Denied | HookAnswer::Memory => Err(Memory),
    }
}
