ghost use Rattle.std.specs.Prelude.{◌≡◌, [], IfOk};
ghost use Rattle.std.specs.Str.{bytes_eq};
ghost use Rattle.hq_session.specs.Secret.{AllowedBySecret, session_by_role, answer_with};

use crate::session::{first_named, role_variable};
use crate::{Headers, HookAnswer, HookRule};
use hq_base::{Memory, Txt};
use hq_model::Session;
use std::alloc::Global;

/// The rule of an admin secret, and of a role for callers that give none.
#[derive(Drop)]
pub struct SecretRule {
    /// The secret that a caller has to give, if one is set.
    pub secret: Option<Txt>,
    /// The role of a caller that gives no secret, if there is one.
    pub unauthorized: Option<Txt>,
}

impl HookRule for SecretRule {
    ghost use Rattle.std.specs.Prelude.{refl};
    ghost use Rattle.std.proofs.Common.{inl};
    ghost use Rattle.hq_session.specs.Secret.{AllowedBySecret};

    ghost allows = { AllowedBySecret };

    ghost allows_memory = { λ rule headers. inl refl };
}

// Whether two texts are the same. It looks at all of them, whatever stands before the first difference, so that the
// time it takes tells nobody how much of a secret was right.
fn is_same(given: &[u8], secret: &[u8]) -> bool
    ensures { result ≡ bytes_eq given.now secret.now }
{
    if given.len() != secret.len() {
        return false;
    }
    let mut same = true;
    for (i, byte) in given.iter().enumerate() {
        let is_here = *byte == secret[i];
        same = same & is_here;
    }
    same
}

// The session of a role that has no other variable.
fn session_by_role(alloc: Global, role: &Txt) -> Result<Session, Memory>
    ensures { IfOk result (λ session. session ≡ session_by_role role.now) }
{
    let vars = role_variable(alloc, role)?;
    Ok(Session {
        role: role.copy(alloc)?,
        vars,
    })
}

// The answer that a session is.
fn answer_of(session: Result<Session, Memory>) -> HookAnswer
    ensures { result ≡ answer_with session }
{
    match session {
        Ok(session) => HookAnswer::Session(session),
        Err(Memory) => HookAnswer::Memory,
    }
}

impl SecretRule {
    /// Who the caller is. Without a secret, or with the right one, the session of the headers; where none is given the
    /// session of the unauthorized role, which has no other variable; Denied where there is no such role, and where
    /// another secret is given. Of a header that is given twice the first value counts.
    pub fn decide(&self, alloc: Global, headers: &Headers) -> HookAnswer
        ensures { AllowedBySecret self.now headers.now result }
    {
        let Some(secret) = &self.secret else {
            return answer_of(headers.session(alloc));
        };
        let Ok(given) = first_named(alloc, headers, "x-hasura-admin-secret") else {
            return HookAnswer::Memory;
        };
        match (given, &self.unauthorized) {
            (Some(given), _) if is_same(given.as_bytes(), secret.as_bytes()) => {
                answer_of(headers.session(alloc))
            }
            (None, Some(role)) => answer_of(session_by_role(alloc, role)),
            _ => HookAnswer::Denied,
        }
    }
}
