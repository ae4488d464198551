ghost use Rattle.std.specs.Prelude.{◌≡◌, All, length, map, option_map};
ghost use Rattle.std.specs.Str.{str_eq_ignore_ascii_case, bytes_eq, is_utf8};
ghost use Rattle.httparse.specs.Spans.{IsHeaderWithin, header_bytes};
ghost use Rattle.hq_http_request.specs.Requests.{value_of, are_text, agree, closes, before_question};

use crate::tokens::closes_in;
use httparse::spans::HeaderSpan;

// Whether a name is this one, without regard to case.
pub fn is_name(name: &[u8], wanted: &[u8]) -> bool
    ensures { result ≡ str_eq_ignore_ascii_case name.now wanted.now }
{
    name.eq_ignore_ascii_case(wanted)
}

fn is_same(a: &[u8], b: &[u8]) -> bool
    ensures { result ≡ bytes_eq a.now b.now }
{
    a == b
}

fn is_text(bytes: &[u8]) -> bool
    ensures { result ≡ is_utf8 bytes.now }
{
    match str::from_utf8(bytes) {
        Ok(_) => true,
        Err(_) => false,
    }
}

// The value of the first field of that name.
pub fn find<'b>(buf: &'b [u8], headers: &[HeaderSpan], name: &[u8]) -> Option<&'b [u8]>
    requires { All (IsHeaderWithin (length buf.now)) headers.now }
    ensures { option_map (λ v. v.now) result ≡ value_of name.now (map (header_bytes buf.now) headers.now) }
{
    for header in headers {
        if is_name(header.name.of(buf), name) {
            return Some(header.value.of(buf));
        }
    }
    None
}

// Whether each value is UTF-8.
pub fn are_text(buf: &[u8], headers: &[HeaderSpan]) -> bool
    requires { All (IsHeaderWithin (length buf.now)) headers.now }
    ensures { result ≡ are_text (map (header_bytes buf.now) headers.now) }
{
    for header in headers {
        if !is_text(header.value.of(buf)) {
            return false;
        }
    }
    true
}

// Whether all fields of that name have that value.
pub fn agree(buf: &[u8], headers: &[HeaderSpan], name: &[u8], value: &[u8]) -> bool
    requires { All (IsHeaderWithin (length buf.now)) headers.now }
    ensures { result ≡ agree name.now value.now (map (header_bytes buf.now) headers.now) }
{
    for header in headers {
        if is_name(header.name.of(buf), name) && !is_same(header.value.of(buf), value) {
            return false;
        }
    }
    true
}

// Whether a field `Connection` has the token `close`.
pub fn closes(buf: &[u8], headers: &[HeaderSpan]) -> bool
    requires { All (IsHeaderWithin (length buf.now)) headers.now }
    ensures { result ≡ closes (map (header_bytes buf.now) headers.now) }
{
    for header in headers {
        if is_name(header.name.of(buf), b"connection") && closes_in(header.value.of(buf)) {
            return true;
        }
    }
    false
}

// What stands before the first `?`.
pub fn before_question(target: &[u8]) -> &[u8]
    ensures { result.now ≡ before_question target.now }
{
    let mut at = 0;
    for b in target {
        if *b == b'?' {
            break;
        }
        at += 1;
    }
    target.split_at(at).0
}
