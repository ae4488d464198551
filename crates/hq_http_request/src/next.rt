ghost use Rattle.std.specs.Prelude.{◌≡◌, ◌-◌, length};
ghost use Rattle.hq_http_request.specs.Holds.{Holds, window};
ghost use Rattle.httparse.specs.Spans.{IsRequestWithin};
ghost use Rattle.hq_http_request.specs.Reads.{Answers, IfWhole, SpansAre};

use crate::fields::closes;
use crate::judge::{asked_place, is_method, judge};
use crate::{Fault, WholeRequest};
use httparse::spans::{HeaderSpan, RequestSpans, parse_request};
use httparse::{Error, Status};

/// The most bytes of a head.
pub const HEAD_LIMIT: usize = 16_384;

/// What the bytes at hand hold.
#[derive(Clone, Copy)]
pub enum Next {
    /// The beginning of a request, which has at least so many bytes.
    More(usize),
    /// A refusal, and whether its reply has no body.
    Refused(Fault, bool),
    /// A whole request.
    Whole(WholeRequest),
}

// What a whole head announces.
fn answer(window: &[u8], total: usize, headers: &[HeaderSpan], spans: RequestSpans) -> Next
    requires within { IsRequestWithin window.now headers.now spans }
    requires fields { spans.headers ≡ length headers.now }
    ensures answers { Answers window.now total headers.now spans result }
    ensures fields { IfWhole result (λ request. request.fields ≡ spans.headers) }
{
    let method = spans.method.of(window);
    let is_head = is_method(method, b"HEAD");
    let closes = spans.version == 0 || closes(window, headers);
    match judge(window, headers, method, spans.version) {
        Err(code) => Next::Refused(code, is_head),
        Ok(body) => {
            let len = spans.len + body;
            if total < len {
                return Next::More(len);
            }
            Next::Whole(WholeRequest {
                place: asked_place(method, spans.path.of(window)),
                is_head,
                closes,
                body: spans.len,
                len,
                fields: spans.headers,
            })
        }
    }
}

/// The bytes in which a head is looked for.
pub fn front(bytes: &[u8]) -> &[u8]
    ensures { result.now ≡ window bytes.now }
{
    if bytes.len() > HEAD_LIMIT {
        bytes.split_at(HEAD_LIMIT).0
    } else {
        bytes
    }
}

/// What the bytes at hand hold. The spans of a whole head's fields are put into `headers`.
pub fn next_request(bytes: &[u8], headers: &mut [HeaderSpan; 64]) -> Next
    ensures holds_next { Holds bytes.now result }
    ensures spans { IfWhole result (λ request. SpansAre (window bytes.now) headers.new request) }
{
    let window = front(bytes);
    match parse_request(window, headers.as_mut_slice()) {
        Ok(Status::Complete(spans)) => {
            answer(
                window,
                bytes.len(),
                &headers.as_slice()[..spans.headers],
                spans,
            )
        }
        Ok(Status::Partial) => {
            if bytes.len() < HEAD_LIMIT {
                Next::More(bytes.len() + 1)
            } else {
                Next::Refused(Fault::HeadTooLarge, false)
            }
        }
        Err(Error::TooManyHeaders) => Next::Refused(Fault::HeadTooLarge, false),
        Err(_) => Next::Refused(Fault::BadRequest, false),
    }
}
