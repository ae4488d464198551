//! A responder that gives the answers of a case, one after the other.
ghost use Rattle.std.specs.Prelude.{◌≡◌, ⊤};

use hq_base::{Bytes, Json, Reply};
use hq_cases_file::{Case, Stop};
use hq_http::{Answer, Responder};
use hq_io::count_fault;
use hq_session::Headers;
use std::alloc::Global;

/// Answers that are left, the next one last.
#[derive(Drop)]
pub struct Replies {
    left: Vec<Answer>,
    faults: u64,
}

// The answer that a JSON value writes.
fn answer(alloc: Global, json: &Json) -> Result<Answer, Stop> {
    match json {
        Json::Str(word) => match word.as_str() {
            "denied" => Ok(Answer::Denied),
            "failed" => Ok(Answer::Failed),
            "memory" => Ok(Answer::Memory),
            _ => Err(Stop::Shape),
        },
        _ => reply(alloc, json),
    }
}

fn reply(alloc: Global, json: &Json) -> Result<Answer, Stop> {
    let (Some(Json::Int(status)), Some(Json::Str(body))) = (
        json.member("status"),
        json.member("body"),
    ) else {
        return Err(Stop::Shape);
    };
    let Ok(status) = u16::try_from(*status) else {
        return Err(Stop::Shape);
    };
    let body = Bytes::from_slice(alloc, body.as_bytes())?;
    Ok(Answer::Body(Reply { status, body }))
}

impl Replies {
    /// The answers of a case.
    pub fn given(alloc: Global, case: &Case) -> Result<Replies, Stop> {
        let replies = case.list("replies")?;
        let mut left = Vec::new(alloc);
        for json in replies.iter().rev() {
            left.push(answer(alloc, json)?)?;
        }
        Ok(Replies { left, faults: 0 })
    }
}

impl Responder for Replies {
    ghost use Rattle.std.specs.Prelude.{◌≡◌, ⊤};

    ghost ready = { λ _. ⊤ };

    ghost may_deny = { λ _ _. ⊤ };

    ghost may_give = { λ _ _ _ reply. reply.status ≡ 200 };

    ghost faults = { λ r. r.faults };

    fn respond(&mut self, _alloc: Global, _headers: &Headers, _body: &[u8]) -> Answer {
        match self.left.pop() {
            Some(Answer::Failed) => {
                count_fault(&mut self.faults);
                Answer::Failed
            }
            Some(Answer::Body(reply)) => {
                if reply.status == 200 {
                    Answer::Body(reply)
                } else {
                    Answer::Memory
                }
            }
            Some(Answer::Denied) => Answer::Denied,
            _ => Answer::Memory,
        }
    }

    ghost status_is_known = { λ r headers body reply given. given };
}
