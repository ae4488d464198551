//! Talks over messages and an asker in memory.
ghost use Rattle.std.specs.Prelude.{◌≡◌, []};

use hq_base::{Bytes, List, Txt};
use hq_io::NumList;
use hq_live::{DueReply, Live, MemAsker, Replies};
use hq_live_talk::{TalkEnd, talk};
use hq_messages::{MemMessages, Message, MessageList, Out};
use hq_session::{Headers, Hook, HookAnswer, SecretRule};
use std::alloc::Global;
use std::str;
use std::test::Fail;

const INIT: &str = r#"{"type":"connection_init","payload":{"headers":{"X-Hasura-Role":"user"}}}"#;

const LIVE: &str =
    r#"{"id":"a","type":"subscribe","payload":{"query":"subscription{author{id}}"}}"#;

const ONCE: &str = r#"{"id":"a","type":"subscribe","payload":{"query":"{author{id}}"}}"#;

const FAULTY: &str = r#"{"id":"f","type":"subscribe","payload":{"query":"subscription{x}"}}"#;

const PING: &str = r#"{"type":"ping"}"#;

const COMPLETE: &str = r#"{"id":"a","type":"complete"}"#;

const ACK: &str = r#"{"type":"connection_ack"}"#;

const PONG: &str = r#"{"type":"pong"}"#;

const NEXT: &str =
    r#"{"id":"a","type":"next","payload":{"data":{"author":[{"id":1},{"id":2},{"id":3}]}}}"#;

const LATER: &str = r#"{"id":"a","type":"next","payload":{"data":{"author":[]}}}"#;

const ERROR: &str = r#"{"id":"f","type":"error","payload":[{"message":"m"}]}"#;

// What a peer sends: a text, a ping of the WebSocket itself (`idle`), or bytes (`other`).
type Sent = &'static str;

// The calls that fail, of the messages and of the asker; what the peer sends; what it is sent, and how the talk ends.
type Row = (u64, u64, &'static [Sent], &'static [&'static str]);

fn text(alloc: Global, text: &str) -> Result<Txt, Fail> {
    Ok(Txt::of(alloc, text.as_bytes())?)
}

fn bytes(alloc: Global, text: &str) -> Result<Bytes, Fail> {
    Ok(Bytes::from_slice(alloc, text.as_bytes())?)
}

fn one(alloc: Global, number: u64) -> Result<NumList, Fail> {
    let mut numbers: NumList = List::new(alloc);
    numbers.push(number)?;
    Ok(numbers)
}

fn messages(alloc: Global, sent: &[Sent]) -> Result<MessageList, Fail> {
    let mut messages: MessageList = List::new(alloc);
    for text in sent {
        messages.push(match *text {
            "idle" => Message::Idle,
            "other" => Message::Other,
            text => Message::Text(bytes(alloc, text)?),
        })?;
    }
    Ok(messages)
}

fn due(alloc: Global, body: &str, reply: &str) -> Result<DueReply, Fail> {
    Ok(DueReply {
        role: text(alloc, "user")?,
        body: bytes(alloc, body)?,
        reply: bytes(alloc, reply)?,
    })
}

// A database over which this reply is due to what is subscribed to, and to the same as a query.
fn database(alloc: Global, reply: &str) -> Result<Replies, Fail> {
    let mut lines: Replies = List::new(alloc);
    lines.push(due(alloc, r#"{"query":"query       {author{id}}"}"#, reply)?)?;
    lines.push(due(alloc, r#"{"query":"{author{id}}"}"#, reply)?)?;
    lines.push(due(
        alloc,
        r#"{"query":"query       {x}"}"#,
        r#"{"errors":[{"message":"m"}]}"#,
    )?)?;
    Ok(lines)
}

// An asker over a database with three authors, and then over one without. The call of this number fails.
fn asker(alloc: Global, fails: u64) -> Result<MemAsker, Fail> {
    let mut next = List::new(alloc);
    next.push(database(alloc, r#"{"data":{"author":[]}}"#)?)?;
    let present = database(alloc, r#"{"data":{"author":[{"id":1},{"id":2},{"id":3}]}}"#)?;
    Ok(MemAsker::new(present, next, one(alloc, fails)?))
}

fn rule() -> SecretRule {
    SecretRule {
        secret: None,
        unauthorized: None,
    }
}

fn end_text(alloc: Global, end: TalkEnd) -> Result<String, Fail> {
    Ok(match end {
        TalkEnd::Ended => String::from_str(alloc, "ended")?,
        TalkEnd::Closed { code } => format!(in alloc; "closed {code}")?,
        TalkEnd::Spent => String::from_str(alloc, "spent")?,
        TalkEnd::LinkFault => String::from_str(alloc, "link fault")?,
        TalkEnd::Memory => String::from_str(alloc, "memory")?,
    })
}

// Talks, and gives the end.
fn talked(
    alloc: Global,
    rule: &SecretRule,
    link: &mut MemMessages,
    live: &mut Live<MemAsker>,
) -> TalkEnd
    requires { live.old.subscriptions.items ≡ [] }
{
    let hook = Hook::new(rule, |headers: &Headers| rule.decide(alloc, headers));
    talk(alloc, link, live, &hook, 1)
}

// Whether these are the texts that were sent, with the code of a close behind them.
fn are_sent(alloc: Global, link: &MemMessages, texts: &[&str]) -> Result<bool, Fail> {
    let mut came = List::new(alloc);
    for out in &link.sent {
        match out {
            Out::Text(text) => came.push(String::from_str(
                alloc,
                str::from_utf8(text.as_slice())?,
            )?)?,
            Out::Close { code } => came.push(format!(in alloc; "{code}")?)?,
        }
    }
    let mut same = came.len() == texts.len();
    for (came, text) in came.as_slice().iter().zip(texts) {
        same = same && came.as_str() == *text;
    }
    Ok(same)
}

// Whether a talk sends what the row says, and leaves no subscription.
fn is_due(alloc: Global, row: Row) -> Result<bool, Fail> {
    let (fails, asker_fails, sent, texts) = row;
    let mut link = MemMessages::new(alloc, messages(alloc, sent)?, one(alloc, fails)?);
    let mut live = Live::new(alloc, asker(alloc, asker_fails)?);
    let rule = rule();
    let end = end_text(alloc, talked(alloc, &rule, &mut link, &mut live))?;
    let [texts @ .., last] = texts else {
        return Ok(false);
    };
    Ok(live.subscriptions.is_empty() && end.as_str() == *last && are_sent(alloc, &link, texts)?)
}

// The place of the first row that is not as due.
fn first_other(alloc: Global, rows: &[Row]) -> Result<Option<usize>, Fail> {
    for (at, row) in rows.iter().enumerate() {
        if !is_due(alloc, *row)? {
            return Ok(Some(at));
        }
    }
    Ok(None)
}

static SUBSCRIBED: [Row; 6] = [
    (0, 0, &[INIT, LIVE], &[ACK, NEXT, "ended"]),
    (
        0,
        0,
        &[INIT, LIVE, PING],
        &[ACK, NEXT, PONG, LATER, "ended"],
    ),
    (
        0,
        0,
        &[INIT, LIVE, COMPLETE, PING],
        &[ACK, NEXT, PONG, "ended"],
    ),
    (
        0,
        0,
        &[INIT, LIVE, COMPLETE, LIVE],
        &[ACK, NEXT, NEXT, "ended"],
    ),
    (
        0,
        0,
        &[INIT, ONCE, PING],
        &[ACK, NEXT, COMPLETE, PONG, "ended"],
    ),
    (0, 0, &[INIT, FAULTY, PING], &[ACK, ERROR, PONG, "ended"]),
];

#[test]
fn what_is_subscribed_to_is_sent(rt: HostRuntime) -> Result<(), Fail> {
    assert!(rt; first_other(rt.alloc(), &SUBSCRIBED)?.is_none());
    Ok(())
}

static CLOSED: [Row; 9] = [
    (0, 0, &[LIVE], &["4401", "closed 4401"]),
    (0, 0, &[INIT, INIT], &[ACK, "4429", "closed 4429"]),
    (
        0,
        0,
        &[INIT, LIVE, LIVE],
        &[ACK, NEXT, "4409", "closed 4409"],
    ),
    (0, 0, &["x"], &["4400", "closed 4400"]),
    (0, 0, &["other"], &["4400", "closed 4400"]),
    (0, 0, &["idle", r#"{"type":"pong"}"#], &["ended"]),
    (0, 0, &[PING], &[PONG, "ended"]),
    (
        0,
        0,
        &[r#"{"type":"connection_init","payload":5}"#],
        &["4400", "closed 4400"],
    ),
    (
        0,
        0,
        &[INIT, r#"{"type":"connection_init","payload":5}"#],
        &[ACK, "4429", "closed 4429"],
    ),
];

#[test]
fn a_message_out_of_place_closes(rt: HostRuntime) -> Result<(), Fail> {
    assert!(rt; first_other(rt.alloc(), &CLOSED)?.is_none());
    Ok(())
}

// The asker's calls are: the ask of the subscription, a reload, and an ask at each ping. Those of the messages are each that comes
// and each that goes.
static FAILED: [Row; 5] = [
    (0, 1, &[INIT, LIVE, PING], &[ACK, PONG, LATER, "ended"]),
    (
        0,
        1,
        &[INIT, ONCE, PING],
        &[ACK, PONG, LATER, COMPLETE, "ended"],
    ),
    (
        0,
        2,
        &[INIT, LIVE, PING, PING],
        &[ACK, NEXT, PONG, PONG, LATER, "ended"],
    ),
    (3, 0, &[INIT, LIVE], &[ACK, "link fault"]),
    (4, 0, &[INIT, LIVE], &[ACK, "link fault"]),
];

#[test]
fn a_failure_is_no_reply(rt: HostRuntime) -> Result<(), Fail> {
    assert!(rt; first_other(rt.alloc(), &FAILED)?.is_none());
    Ok(())
}

// So many messages that say nothing.
fn idles(alloc: Global, count: u32) -> Result<MessageList, Fail> {
    let mut messages: MessageList = List::new(alloc);
    for _ in 0..count {
        messages.push(Message::Idle)?;
    }
    Ok(messages)
}

// How a talk of so many messages ends.
fn end_behind(alloc: Global, count: u32) -> Result<TalkEnd, Fail> {
    let mut link = MemMessages::new(alloc, idles(alloc, count)?, one(alloc, 0)?);
    let mut live = Live::new(alloc, asker(alloc, 0)?);
    let rule = rule();
    Ok(talked(alloc, &rule, &mut link, &mut live))
}

#[test]
fn the_ten_thousandth_message_is_the_last(rt: HostRuntime) -> Result<(), Fail> {
    let alloc = rt.alloc();
    assert!(rt; end_behind(alloc, 9_999)? == TalkEnd::Ended);
    assert!(rt; end_behind(alloc, 10_001)? == TalkEnd::Spent);
    Ok(())
}
