//! The texts that go out, compact.
ghost use Rattle.std.specs.Prelude.{◌≡◌, true, IfOk};
ghost use Rattle.hq_live_talk.specs.Texts.{tells_fault, errors_in, next_text, error_text, complete_text, named};

use hq_base::{Bytes, Memory, Txt, put_quoted};
use std::alloc::Global;

/// What a session is told by.
pub const ACK: &[u8] = br#"{"type":"connection_ack"}"#;

/// The answer to `ping`.
pub const PONG: &[u8] = br#"{"type":"pong"}"#;

/// Why a subscription is not begun for one who has 100.
pub const TOO_MANY: &[u8] =
    br#"[{"message":"too many subscriptions","extensions":{"path":"$","code":"bad-request","rule":"L1","at":null}}]"#;

/// Whether a reply tells a fault.
pub fn tells_fault(reply: &[u8]) -> bool
    ensures { result ≡ tells_fault reply.now }
{
    reply.len() >= 13 && reply.starts_with(br#"{"errors":["#) && reply.ends_with(b"]}")
}

/// The faults that a reply tells, as an array.
pub fn errors_in(reply: &[u8]) -> &[u8]
    requires { tells_fault reply.now ≡ true }
    ensures { result.now ≡ errors_in reply.now }
{
    let front = &reply[..reply.len() - 1];
    &front[10..]
}

// The front of a text about the subscription of this name.
fn named(alloc: Global, id: &Txt) -> Result<Bytes, Memory>
    ensures { IfOk result (λ text. text ≡ named id.now) }
{
    let mut text = Bytes::from_slice(alloc, br#"{"id":"#)?;
    put_quoted(&mut text, id)?;
    Ok(text)
}

/// `next`: a reply that is data.
pub fn next_text(alloc: Global, id: &Txt, reply: &[u8]) -> Result<Bytes, Memory>
    ensures { IfOk result (λ text. text ≡ next_text id.now reply.now) }
{
    let mut text = named(alloc, id)?;
    text.append(br#","type":"next","payload":"#)?;
    text.append(reply)?;
    text.append(b"}")?;
    Ok(text)
}

/// `error`: faults, after which the subscription is over.
pub fn error_text(alloc: Global, id: &Txt, errors: &[u8]) -> Result<Bytes, Memory>
    ensures { IfOk result (λ text. text ≡ error_text id.now errors.now) }
{
    let mut text = named(alloc, id)?;
    text.append(br#","type":"error","payload":"#)?;
    text.append(errors)?;
    text.append(b"}")?;
    Ok(text)
}

/// `complete`: the subscription is over.
pub fn complete_text(alloc: Global, id: &Txt) -> Result<Bytes, Memory>
    ensures { IfOk result (λ text. text ≡ complete_text id.now) }
{
    let mut text = named(alloc, id)?;
    text.append(br#","type":"complete"}"#)?;
    Ok(text)
}
