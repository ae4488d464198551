ghost use Rattle.std.specs.Prelude.{◌≡◌, ◌++◌, length, OnOk, decimal, codes};
ghost use Rattle.hq_http.specs.Replies.{number_of, phrase_of, status_line, type_line, allow_line, close_line, reply_head, reply_bytes, fault_text};

use hq_base::{Bytes, Memory};
use hq_http_request::{Fault, Target};
use http::StatusCode;
use itoa::Buffer;

/// How a reply is written.
#[derive(Clone, Copy)]
pub struct Manner {
    pub status: u16,
    /// The body is plain text, and not JSON.
    pub plain: bool,
    pub place: Target,
    /// The connection ends after it.
    pub closes: bool,
    /// The method was HEAD: the body is left out, and its length is told all the same.
    pub is_head: bool,
}

/// The status of a fault.
pub fn number_of(fault: Fault) -> u16
    ensures { result ≡ number_of fault }
{
    match fault {
        Fault::BadRequest => 400,
        Fault::Denied => 401,
        Fault::NotFound => 404,
        Fault::NotAllowed => 405,
        Fault::LengthRequired => 411,
        Fault::BodyTooLarge => 413,
        Fault::HeadTooLarge => 431,
        Fault::Failed => 500,
        Fault::Unavailable => 503,
    }
}

/// The body of a fault.
#[tactic(auto, unfolding(crate::specs::Replies::fault_text))]
pub fn fault_text(fault: Fault) -> &'static [u8]
    ensures { result.now ≡ fault_text fault }
{
    match fault {
        Fault::BadRequest => {
            br#"{"errors":[{"message":"bad request","extensions":{"path":"$","code":"bad-request","rule":"H400","at":null}}]}"#
        }
        Fault::Denied => {
            br#"{"errors":[{"message":"access denied","extensions":{"path":"$","code":"access-denied","rule":"H401","at":null}}]}"#
        }
        Fault::NotFound => {
            br#"{"errors":[{"message":"resource does not exist","extensions":{"path":"$","code":"not-found","rule":"H404","at":null}}]}"#
        }
        Fault::NotAllowed => {
            br#"{"errors":[{"message":"method not allowed","extensions":{"path":"$","code":"not-found","rule":"H405","at":null}}]}"#
        }
        Fault::LengthRequired => {
            br#"{"errors":[{"message":"length required","extensions":{"path":"$","code":"bad-request","rule":"H411","at":null}}]}"#
        }
        Fault::BodyTooLarge => {
            br#"{"errors":[{"message":"body too large","extensions":{"path":"$","code":"bad-request","rule":"H413","at":null}}]}"#
        }
        Fault::HeadTooLarge => {
            br#"{"errors":[{"message":"head too large","extensions":{"path":"$","code":"bad-request","rule":"H431","at":null}}]}"#
        }
        Fault::Failed => {
            br#"{"errors":[{"message":"database error","extensions":{"path":"$","code":"unexpected","rule":"H500","at":null}}]}"#
        }
        Fault::Unavailable => {
            br#"{"errors":[{"message":"out of memory","extensions":{"path":"$","code":"unexpected","rule":"H503","at":null}}]}"#
        }
    }
}

// The phrase of a status, as the crate `http` has it.
#[tactic(auto, unfolding(crate::specs::Replies::phrase_of))]
fn phrase(status: u16) -> &'static [u8]
    ensures { result.now ≡ phrase_of status }
{
    match StatusCode::from_u16(status) {
        Ok(code) => match code.canonical_reason() {
            Some(phrase) => phrase.as_bytes(),
            None => b"",
        },
        Err(_) => b"",
    }
}

#[tactic(auto, unfolding(crate::specs::Replies::type_line))]
fn type_line(plain: bool) -> &'static [u8]
    ensures { result.now ≡ type_line plain }
{
    if plain {
        b"Content-Type: text/plain; charset=utf-8\r\n"
    } else {
        b"Content-Type: application/json; charset=utf-8\r\n"
    }
}

#[tactic(auto, unfolding(crate::specs::Replies::allow_line))]
fn allow_line(place: Target) -> &'static [u8]
    ensures { result.now ≡ allow_line place }
{
    match place {
        Target::NotPost => b"Allow: POST\r\n",
        Target::NotGet => b"Allow: GET\r\n",
        Target::Graphql | Target::Health | Target::Nowhere => b"",
    }
}

#[tactic(auto, unfolding(crate::specs::Replies::close_line))]
fn close_line(closes: bool) -> &'static [u8]
    ensures { result.now ≡ close_line closes }
{
    if closes {
        b"Connection: close\r\n"
    } else {
        b""
    }
}

// Adds the status line.
fn put_status(out: &mut Bytes, status: u16) -> Result<(), Memory>
    ensures { OnOk result (out.new ≡ out.old ++ status_line status) }
{
    let mut buffer = Buffer::new();
    out.append(b"HTTP/1.1 ")?;
    out.append(buffer.format(status).as_bytes())?;
    out.append(b" ")?;
    out.append(phrase(status))?;
    out.append(b"\r\n")
}

// Adds the line of the body's length.
fn put_length(out: &mut Bytes, length: usize) -> Result<(), Memory>
    ensures { OnOk result (out.new ≡ out.old ++ codes "Content-Length: " ++ decimal length ++ codes "\r\n") }
{
    let mut buffer = Buffer::new();
    out.append(b"Content-Length: ")?;
    out.append(buffer.format(length).as_bytes())?;
    out.append(b"\r\n")
}

// Adds the head of a reply with a body of this length.
fn put_head(out: &mut Bytes, manner: Manner, length: usize) -> Result<(), Memory>
    ensures { OnOk result (out.new ≡ out.old ++ reply_head manner length) }
{
    put_status(out, manner.status)?;
    out.append(type_line(manner.plain))?;
    put_length(out, length)?;
    out.append(allow_line(manner.place))?;
    out.append(close_line(manner.closes))?;
    out.append(b"\r\n")
}

/// Makes the bytes of a reply.
pub fn put_reply(out: &mut Bytes, manner: Manner, body: &[u8]) -> Result<(), Memory>
    ensures { OnOk result (out.new ≡ reply_bytes manner body.now) }
{
    out.clear();
    put_head(out, manner, body.len())?;
    if !manner.is_head {
        out.append(body)?;
    }
    Ok(())
}
