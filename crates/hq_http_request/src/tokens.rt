ghost use Rattle.std.specs.Prelude.{◌≡◌, reverse};
ghost use Rattle.httparse.specs.Grammar.{is_ows, skip_ows, trim_ows};
ghost use Rattle.hq_http_request.specs.Requests.{is_close, closes_in};

// Whether a byte is a space or a tab.
fn is_blank(b: u8) -> bool
    ensures { result ≡ is_ows b }
{
    b == b' ' || b == b'\t'
}

// What follows the spaces and tabs at the front.
fn without_front(bytes: &[u8]) -> &[u8]
    ensures { result.now ≡ skip_ows bytes.now }
{
    let mut rest = bytes;
    while let [first, others @ ..] = rest {
        if !is_blank(*first) {
            return rest;
        }
        rest = others;
    }
    rest
}

// What stands before the spaces and tabs at the end.
fn without_back(bytes: &[u8]) -> &[u8]
    ensures { result.now ≡ reverse (skip_ows (reverse bytes.now)) }
{
    let mut rest = bytes;
    while let [others @ .., last] = rest {
        if !is_blank(*last) {
            return rest;
        }
        rest = others;
    }
    rest
}

// What stands between the spaces and tabs at both ends.
#[tactic(auto, unfolding(httparse::specs::Grammar::trim_ows))]
fn trimmed(bytes: &[u8]) -> &[u8]
    ensures { result.now ≡ trim_ows bytes.now }
{
    without_back(without_front(bytes))
}

// Whether a token is `close`.
fn is_close(part: &[u8]) -> bool
    ensures { result ≡ is_close part.now }
{
    trimmed(part).eq_ignore_ascii_case(b"close")
}

/// Whether a list of tokens has the token `close`.
pub fn closes_in(value: &[u8]) -> bool
    ensures { result ≡ closes_in value.now }
{
    value.split(|b| *b == b',').any(|part| is_close(part))
}
