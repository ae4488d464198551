//! The headers that a peer gives with `connection_init`.
ghost use Rattle.std.specs.Prelude.{◌≡◌, IfOk, Some, map, codes};
ghost use Rattle.hq_base.specs.Look.{member_in};
ghost use Rattle.hq_base.specs.Json.{json_view, member_view};
ghost use Rattle.hq_session.specs.Fields.{lowered};
ghost use Rattle.hq_live_talk.specs.Reading.{header_of, all_headers, headers_if, payload_headers};

use hq_base::{Json, Member, Memory, Txt};
use hq_session::{Header, Headers};
use std::alloc::Global;

// A name in lower case.
fn lowered(alloc: Global, name: &Txt) -> Result<Txt, Memory>
    ensures { IfOk result (λ text. text ≡ lowered name.now) }
{
    let name = name.as_str().to_ascii_lowercase(alloc)?;
    // Letters in place of letters leave a text a text, so that it wants memory at most.
    match Txt::of(alloc, name.as_bytes()) {
        Ok(text) => Ok(text),
        Err(_) => Err(Memory),
    }
}

// The header that a member is, if its value is a text.
fn header_of(alloc: Global, member: &Member) -> Result<Option<Header>, Memory>
    ensures { IfOk result (λ header. header ≡ header_of (member_view member.now)) }
{
    let Some(value) = member.value.as_txt() else {
        return Ok(None);
    };
    let name = lowered(alloc, &member.name)?;
    let value = value.copy(alloc)?;
    Ok(Some(Header { name, value }))
}

// The headers that members are, at most 64, if their values are texts.
fn all_headers(alloc: Global, members: &[Member]) -> Result<Option<Headers>, Memory>
    ensures { IfOk result (λ headers. headers ≡ all_headers (map member_view members.now)) }
{
    let mut headers = Headers::new(alloc);
    'members: for member in members {
        let Some(header) = header_of(alloc, member)? else {
            return Ok(None);
        };
        if headers.push(header).is_err() {
            // There is room for 64, so that it wants memory.
            return Err(Memory);
        }
    }
    Ok(Some(headers))
}

// The headers that a value is.
fn headers_if(alloc: Global, headers: &Json) -> Result<Option<Headers>, Memory>
    ensures { IfOk result (λ all. all ≡ headers_if (Some (json_view headers.now))) }
{
    match headers.as_object() {
        Some(members) if members.len() <= 64 => all_headers(alloc, members),
        _ => Ok(None),
    }
}

// The headers that the payload of `connection_init` has.
fn headers_in(alloc: Global, payload: &Json) -> Result<Option<Headers>, Memory>
    ensures { IfOk result (λ all. all ≡ payload_headers (Some (json_view payload.now))) }
{
    match payload {
        Json::Null => Ok(Some(Headers::new(alloc))),
        Json::Obj(_) => match payload.member("headers") {
            Some(headers) => headers_if(alloc, headers),
            None => Ok(Some(Headers::new(alloc))),
        },
        Json::Bool(_) | Json::Int(_) | Json::Str(_) | Json::Arr(_) => Ok(None),
    }
}

/// The headers that the payload of `connection_init` has, if it has the form of one.
pub fn payload_headers(alloc: Global, message: &Json) -> Result<Option<Headers>, Memory>
    ensures { IfOk result (λ all. all ≡ payload_headers (member_in (json_view message.now) (codes "payload"))) }
{
    match message.member("payload") {
        Some(payload) => headers_in(alloc, payload),
        None => Ok(Some(Headers::new(alloc))),
    }
}
