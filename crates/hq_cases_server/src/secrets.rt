//! Who the caller is, by the rule of an admin secret.

use hq_base::Txt;
use hq_cases_file::{Case, Stop, Words, given_headers, push_session};
use hq_session::{HookAnswer, SecretRule};
use std::alloc::Global;

// The text that a member writes, where it is there.
fn text_if(alloc: Global, case: &Case, member: &str) -> Result<Option<Txt>, Stop> {
    match case.find(member) {
        Some(_) => Ok(Some(case.text(alloc, member)?)),
        None => Ok(None),
    }
}

// The rule of a case.
fn rule(alloc: Global, case: &Case) -> Result<SecretRule, Stop> {
    let secret = text_if(alloc, case, "secret")?;
    let unauthorized = text_if(alloc, case, "unauthorized")?;
    Ok(SecretRule {
        secret,
        unauthorized,
    })
}

fn push_caller(answer: &HookAnswer, out: &mut Words) {
    match answer {
        HookAnswer::Session(session) => push_session(session, out),
        HookAnswer::Denied => out.push("denied"),
        HookAnswer::Memory => out.stop(Stop::Memory),
    }
}

fn push_decided(
    alloc: Global,
    rule: &SecretRule,
    lines: &[Txt],
    out: &mut Words,
) -> Result<(), Stop> {
    match given_headers(alloc, lines)? {
        Ok(headers) => push_caller(&rule.decide(alloc, &headers), out),
        Err(_) => out.stop(Stop::Shape),
    }
    Ok(())
}

/// The session of a caller with these headers, or that the caller is denied.
pub fn tell_caller(alloc: Global, case: &Case, out: &mut Words) -> Result<(), Stop> {
    let rule = rule(alloc, case)?;
    let lines = case.texts(alloc, "in")?;
    push_decided(alloc, &rule, lines.as_slice(), out)
}
