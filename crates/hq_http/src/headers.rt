ghost use Rattle.std.specs.Prelude.{◌≡◌, All, IfOk, length, map};
ghost use Rattle.httparse.specs.Spans.{IsHeaderWithin, header_bytes};
ghost use Rattle.hq_http.specs.Fields.{header_of, headers_in};

use hq_base::{Memory, Txt};
use hq_session::{Header, Headers};
use httparse::spans::HeaderSpan;
use std::alloc::Global;

// The text of these bytes. That they are one has been told before, by the head's own judgement.
fn text_of(alloc: Global, bytes: &[u8]) -> Result<Txt, Memory>
    ensures { IfOk result (λ text. text ≡ bytes.now) }
{
    match Txt::of(alloc, bytes) {
        Ok(text) => Ok(text),
        Err(_) => Err(Memory),
    }
}

// The header of a field.
fn read_header(alloc: Global, name: &[u8], value: &[u8]) -> Result<Header, Memory>
    ensures { IfOk result (λ header. header ≡ header_of (name.now, value.now)) }
{
    let name = name.to_ascii_lowercase(alloc)?;
    Ok(Header {
        name: text_of(alloc, &name)?,
        value: text_of(alloc, value)?,
    })
}

/// The headers of a head whose fields lie at these spans.
pub fn read_headers(alloc: Global, head: &[u8], fields: &[HeaderSpan]) -> Result<Headers, Memory>
    requires { All (IsHeaderWithin (length head.now)) fields.now }
    ensures { IfOk result (λ headers. headers ≡ headers_in (map (header_bytes head.now) fields.now)) }
{
    let mut headers = Headers::new(alloc);
    for field in fields {
        let header = read_header(alloc, field.name.of(head), field.value.of(head))?;
        if headers.push(header).is_err() {
            return Err(Memory);
        }
    }
    Ok(headers)
}
