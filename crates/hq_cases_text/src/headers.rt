//! Headers, the sessions that they give, and the variables of these.

use hq_base::{Memory, Txt};
use hq_cases_file::{Case, Stop, Words, given_headers, given_session, push_session};
use hq_model::Session;
use hq_session::{Header, Headers};
use std::alloc::Global;

/// The name and value of a header, or that it is none.
pub fn tell_header(alloc: Global, case: &Case, words: &mut Words) -> Result<(), Stop> {
    let line = case.text(alloc, "in")?;
    words.push_shown(&Header::is_one(&line));
    push_header(&Header::read(alloc, &line)?, words);
    Ok(())
}

fn push_header(header: &Option<Header>, words: &mut Words) {
    if let Some(header) = header {
        words.push_pair(" ", header.name.as_str());
        words.push_pair("=", header.value.as_str());
    }
}

/// The role and the variables of the session that headers give, and the first value of the header `x`; or their refusal.
pub fn tell_session(alloc: Global, case: &Case, words: &mut Words) -> Result<(), Stop> {
    let lines = case.texts(alloc, "in")?;
    push_lines(alloc, lines.as_slice(), words)
}

fn push_lines(alloc: Global, lines: &[Txt], words: &mut Words) -> Result<(), Stop> {
    match given_headers(alloc, lines)? {
        Ok(headers) => push_headers(alloc, &headers, words)?,
        Err(refusal) => words.push_debug(&refusal),
    }
    Ok(())
}

fn push_headers(alloc: Global, headers: &Headers, words: &mut Words) -> Result<(), Stop> {
    let name = Txt::of(alloc, b"x")?;
    push_session(&session_copy(alloc, headers)?, words);
    push_value("; the first x is", headers.first(&name), words);
    Ok(())
}

fn session_copy(alloc: Global, headers: &Headers) -> Result<Session, Memory> {
    let session = headers.session(alloc)?;
    session.copy(alloc)
}

fn push_value(before: &str, value: Option<&Txt>, words: &mut Words) {
    words.push(before);
    match value {
        Some(value) => {
            words.push_pair(" '", value.as_str());
            words.push("'");
        }
        None => words.push(" absent"),
    }
}

/// The value of a variable of a session.
pub fn tell_variable(alloc: Global, case: &Case, words: &mut Words) -> Result<(), Stop> {
    let name = case.text(alloc, "in")?;
    let session = given_session(alloc, case)?;
    push_value("is", session.var(&name), words);
    Ok(())
}
