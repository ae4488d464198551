//! How a message is read.
ghost use Rattle.std.specs.Prelude.{◌≡◌, IfOk, option_copied};
ghost use Rattle.hq_base.specs.Body.{body_of};
ghost use Rattle.hq_base.specs.Json.{json_view};
ghost use Rattle.hq_live_talk.specs.Reading.{text_in, kind_of, kind_in, is_request, init_said, subscribe_said, complete_said, said_in, said_of};

use crate::init_headers::payload_headers;
use hq_base::{Json, JsonRefusal, Memory, Txt};
use hq_live::Body;
use hq_live_text::live_text;
use hq_session::Headers;
use std::alloc::Global;

/// What a peer says.
#[derive(Drop)]
pub enum Said {
    /// `connection_init`, with its headers.
    Init(Headers),
    /// `connection_init` of another form.
    BadInit,
    /// `subscribe`, with the live text of its payload, and whether that lasts.
    Subscribe {
        id: Txt,
        body: Body,
        is_lasting: bool,
    },
    /// `subscribe` of another form.
    BadSubscribe,
    Ping,
    /// `pong`, or a ping or pong of the WebSocket itself.
    Pong,
    /// `complete`, with the name of what is to end.
    Complete {
        id: Txt,
    },
    /// Anything else.
    Bad,
}

/// The kind of a message, by its `type`.
#[derive(Clone, Copy)]
pub enum Kind {
    Init,
    Subscribe,
    Ping,
    Pong,
    Complete,
    Unknown,
}

// The kind of this name.
fn kind_of(name: &Txt) -> Kind
    ensures { result ≡ kind_of name.now }
{
    if name.as_str() == "connection_init" {
        Kind::Init
    } else if name.as_str() == "subscribe" {
        Kind::Subscribe
    } else if name.as_str() == "ping" {
        Kind::Ping
    } else if name.as_str() == "pong" {
        Kind::Pong
    } else if name.as_str() == "complete" {
        Kind::Complete
    } else {
        Kind::Unknown
    }
}

// The text of the member of this name, where it is one.
fn text_in<'a>(message: &'a Json, name: &str) -> Option<&'a Txt>
    ensures { option_copied result ≡ text_in (json_view message.now) name.now }
{
    message.member(name)?.as_txt()
}

// The kind of a message.
fn kind_in(message: &Json) -> Kind
    ensures { result ≡ kind_in (json_view message.now) }
{
    match text_in(message, "type") {
        Some(name) => kind_of(name),
        None => Kind::Unknown,
    }
}

// Reads `connection_init`.
fn init_said(alloc: Global, message: &Json) -> Result<Said, Memory>
    ensures { IfOk result (λ said. said ≡ init_said (json_view message.now)) }
{
    match payload_headers(alloc, message)? {
        Some(headers) => Ok(Said::Init(headers)),
        None => Ok(Said::BadInit),
    }
}

// Whether a name and a payload have the form of what is subscribed to.
fn is_request(id: &Txt, payload: &Json) -> bool
    ensures { result ≡ is_request id.now (json_view payload.now) }
{
    !id.as_str().is_empty() && payload.as_object().is_some()
}

// Reads `subscribe`.
fn subscribe_said(alloc: Global, message: &Json) -> Result<Said, Memory>
    ensures { IfOk result (λ said. said ≡ subscribe_said (json_view message.now)) }
{
    let Some(id) = text_in(message, "id") else {
        return Ok(Said::BadSubscribe);
    };
    let Some(payload) = message.member("payload") else {
        return Ok(Said::BadSubscribe);
    };
    if !is_request(id, payload) {
        return Ok(Said::BadSubscribe);
    }
    let live = live_text(alloc, payload)?;
    if live.body.len() > 1_048_576 {
        return Ok(Said::BadSubscribe);
    }
    Ok(Said::Subscribe {
        id: id.copy(alloc)?,
        body: Body::new(live.body),
        is_lasting: live.is_lasting,
    })
}

// Reads `complete`.
fn complete_said(alloc: Global, message: &Json) -> Result<Said, Memory>
    ensures { IfOk result (λ said. said ≡ complete_said (json_view message.now)) }
{
    match text_in(message, "id") {
        Some(id) => Ok(Said::Complete {
            id: id.copy(alloc)?,
        }),
        None => Ok(Said::Bad),
    }
}

// Reads a message of JSON.
fn said_in(alloc: Global, message: &Json) -> Result<Said, Memory>
    ensures { IfOk result (λ said. said ≡ said_in (json_view message.now)) }
{
    match kind_in(message) {
        Kind::Init => init_said(alloc, message),
        Kind::Subscribe => subscribe_said(alloc, message),
        Kind::Ping => Ok(Said::Ping),
        Kind::Pong => Ok(Said::Pong),
        Kind::Complete => complete_said(alloc, message),
        Kind::Unknown => Ok(Said::Bad),
    }
}

/// Reads a message: what a peer says by a text.
pub fn read_message(alloc: Global, text: &[u8]) -> Result<Said, Memory>
    ensures { IfOk result (λ said. said ≡ said_of (body_of text.now)) }
{
    match Json::from_body(alloc, text) {
        Ok(message) => said_in(alloc, &message),
        Err(JsonRefusal::Memory) => Err(Memory),
        Err(JsonRefusal::NotJson | JsonRefusal::Fraction | JsonRefusal::ZeroByte) => Ok(Said::Bad),
    }
}
