//! The hall that a case writes: talks in memory, none where the member `talks` is absent. A message is a text; null is a ping of the
//! WebSocket itself, and false bytes.

use crate::directory::failing;
use crate::links::failing_calls;
use hq_base::{Json, List};
use hq_cases_file::{Case, Stop, Words, input_bytes, push_bytes};
use hq_messages::{MemHall, MemMessages, MemTalks, Message, MessageList, Out};
use std::alloc::Global;

fn message(alloc: Global, json: &Json) -> Result<Message, Stop> {
    match json {
        Json::Null => Ok(Message::Idle),
        Json::Bool(_) => Ok(Message::Other),
        pieces => Ok(Message::Text(input_bytes(alloc, pieces)?)),
    }
}

// The messages that come in.
fn messages(alloc: Global, talk: &Json) -> Result<MessageList, Stop> {
    let Some(Json::Arr(elements)) = talk.member("in") else {
        return Err(Stop::Shape);
    };
    let mut messages = List::new(alloc);
    for element in elements {
        messages.push(message(alloc, element)?)?;
    }
    Ok(messages)
}

fn talk(alloc: Global, talk: &Json) -> Result<MemMessages, Stop> {
    let calls = failing_calls(alloc, talk, "calls")?;
    Ok(MemMessages::new(alloc, messages(alloc, talk)?, calls))
}

fn talks(alloc: Global, case: &Case) -> Result<MemTalks, Stop> {
    let mut talks = List::new(alloc);
    if let Some(Json::Arr(elements)) = case.find("talks") {
        for element in elements {
            talks.push(talk(alloc, element)?)?;
        }
    }
    Ok(talks)
}

/// The hall.
pub fn hall(alloc: Global, case: &Case) -> Result<MemHall, Stop> {
    let accepts = failing(alloc, case, "accepts")?;
    Ok(MemHall::new(alloc, talks(alloc, case)?, accepts))
}

// How many talks a case writes.
fn count(case: &Case) -> usize {
    match case.find("talks") {
        Some(Json::Arr(elements)) => elements.len(),
        _ => 0,
    }
}

// Adds what was sent in a talk, each behind a space.
fn push_sent(alloc: Global, talk: &MemMessages, words: &mut Words) {
    for out in &talk.sent {
        match out {
            Out::Text(text) => {
                words.push(" ");
                push_bytes(alloc, text.as_slice(), words);
            }
            Out::Close { code } => {
                words.push(" close ");
                words.push_number(u64::from(*code));
            }
        }
    }
}

/// Adds what was sent in each talk, behind a bar.
pub fn push_talks(alloc: Global, case: &Case, hall: &MemHall, words: &mut Words) {
    for at in 0..count(case) {
        if let Some(talk) = hall.talk_at(at) {
            words.push(" |");
            push_sent(alloc, talk, words);
        }
    }
}
