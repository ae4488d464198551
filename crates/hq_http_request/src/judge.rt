ghost use Rattle.std.specs.Prelude.{◌≡◌, All, length, map};
ghost use Rattle.std.specs.Str.{bytes_eq};
ghost use Rattle.httparse.specs.Spans.{IsHeaderWithin, header_bytes};
ghost use Rattle.hq_http_request.specs.Requests.{is_number, before_question};
ghost use Rattle.hq_http_request.specs.Holds.{place_of, BodyIs, Judged};

use crate::Fault;
use crate::fields::{agree, are_text, before_question, find};
use crate::number::{body_length, is_number};
use httparse::spans::HeaderSpan;

/// What a request asks for.
#[derive(Clone, Copy)]
pub enum Target {
    Graphql,
    Health,
    NotPost,
    NotGet,
    Nowhere,
}

/// A whole request that is not refused. Places count bytes from its first byte on.
#[derive(Clone, Copy)]
pub struct WholeRequest {
    pub place: Target,
    /// The method is HEAD, so the reply has no body.
    pub is_head: bool,
    /// The connection ends after the reply.
    pub closes: bool,
    /// Where the body begins, and where it ends.
    pub body: usize,
    pub len: usize,
    /// How many fields the head has.
    pub fields: usize,
}

// Whether a method is this one.
pub fn is_method(method: &[u8], wanted: &[u8]) -> bool
    ensures { result ≡ bytes_eq method.now wanted.now }
{
    method == wanted
}

// What a method asks for at a target.
pub fn asked_place(method: &[u8], target: &[u8]) -> Target
    ensures { result ≡ place_of method.now target.now }
{
    let path = before_question(target);
    if is_method(path, b"/v1/graphql") {
        if is_method(method, b"POST") {
            Target::Graphql
        } else {
            Target::NotPost
        }
    } else if is_method(path, b"/healthz") {
        if is_method(method, b"GET") {
            Target::Health
        } else {
            Target::NotGet
        }
    } else {
        Target::Nowhere
    }
}

// The length of the body, or the refusal.
fn length(buf: &[u8], headers: &[HeaderSpan], method: &[u8]) -> Result<usize, Fault>
    requires { All (IsHeaderWithin (length buf.now)) headers.now }
    ensures { BodyIs method.now (map (header_bytes buf.now) headers.now) result }
{
    let chunked = find(buf, headers, b"transfer-encoding").is_some();
    match find(buf, headers, b"content-length") {
        None => {
            if chunked || is_method(method, b"POST") {
                Err(Fault::LengthRequired)
            } else {
                Ok(0)
            }
        }
        Some(value) => {
            if !(is_number(value) && agree(buf, headers, b"content-length", value)) {
                Err(Fault::BadRequest)
            } else if chunked {
                Err(Fault::LengthRequired)
            } else {
                body_length(value).ok_or(Fault::BodyTooLarge)
            }
        }
    }
}

// The length of the body of a whole head, or its refusal.
pub fn judge(buf: &[u8], headers: &[HeaderSpan], method: &[u8], minor: u8) -> Result<usize, Fault>
    requires { All (IsHeaderWithin (length buf.now)) headers.now }
    ensures { Judged method.now minor (map (header_bytes buf.now) headers.now) result }
{
    if !are_text(buf, headers) {
        return Err(Fault::BadRequest);
    }
    if minor == 1 && find(buf, headers, b"host").is_none() {
        return Err(Fault::BadRequest);
    }
    length(buf, headers, method)
}
