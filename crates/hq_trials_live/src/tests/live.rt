//! Live queries over an asker in memory.
use hq_base::{Bytes, List, Txt};
use hq_io::NumList;
use hq_live::{Body, DueReply, Event, Live, MemAsker, Replies, Sends, Sent, StepRefusal, What};
use hq_model::Session;
use std::alloc::Global;
use std::str;
use std::test::Fail;

// What happens: a subscriber is named by his number, and asks in a role of his own.
#[derive(Clone, Copy)]
enum Happening {
    Subscribe(u32, &'static str),
    Tick,
    Reload,
    Complete(u32, &'static str),
    Gone(u32),
}

use Happening::{Complete, Gone, Reload, Subscribe, Tick};

// What is sent for it, or why it is refused, as text.
type Row = (Happening, &'static str);

fn text(alloc: Global, text: &str) -> Result<Txt, Fail> {
    Ok(Txt::of(alloc, text.as_bytes())?)
}

fn bytes(alloc: Global, text: &str) -> Result<Bytes, Fail> {
    Ok(Bytes::from_slice(alloc, text.as_bytes())?)
}

fn role(who: u32) -> &'static str {
    if who == 1 { "user" } else { "reader" }
}

fn session(alloc: Global, who: u32) -> Result<Session, Fail> {
    Ok(Session {
        role: text(alloc, role(who))?,
        vars: List::new(alloc),
    })
}

fn body(alloc: Global) -> Result<Body, Fail> {
    let mut bytes = Bytes::new(alloc);
    bytes.push(b'q')?;
    Ok(Body::new(bytes))
}

// A subscription of this name.
fn subscribed(alloc: Global, who: u32, id: Txt) -> Result<Event, Fail> {
    let session = session(alloc, who)?;
    let body = body(alloc)?;
    Ok(Event::Subscribe {
        who,
        id,
        session,
        body,
    })
}

fn event(alloc: Global, happening: Happening) -> Result<Event, Fail> {
    Ok(match happening {
        Subscribe(who, id) => subscribed(alloc, who, text(alloc, id)?)?,
        Tick => Event::Tick,
        Reload => Event::Reload,
        Complete(who, id) => Event::Complete {
            who,
            id: text(alloc, id)?,
        },
        Gone(who) => Event::Gone { who },
    })
}

// A database over which this reply is due to role `user`, and that one to role `reader`.
fn database(alloc: Global, replies: (&str, &str)) -> Result<Replies, Fail> {
    let mut lines = List::new(alloc);
    lines.push(DueReply {
        role: text(alloc, role(1))?,
        body: bytes(alloc, "q")?,
        reply: bytes(alloc, replies.0)?,
    })?;
    lines.push(DueReply {
        role: text(alloc, role(2))?,
        body: bytes(alloc, "q")?,
        reply: bytes(alloc, replies.1)?,
    })?;
    Ok(lines)
}

// An asker over a database with Bob, then one with Rob, then one with Rob, in which another reply is due to role `reader`. The call of
// this number fails.
fn asker(alloc: Global, fails: u64) -> Result<MemAsker, Fail> {
    let mut next = List::new(alloc);
    next.push(database(alloc, ("Rob", "x"))?)?;
    next.push(database(alloc, ("Rob", "y"))?)?;
    let mut failing: NumList = List::new(alloc);
    failing.push(fails)?;
    Ok(MemAsker::new(database(alloc, ("Bob", "x"))?, next, failing))
}

fn sent(alloc: Global, sent: &Sent) -> Result<String, Fail> {
    let (who, id) = (sent.who, sent.id.as_str());
    Ok(match &sent.what {
        What::Reply(reply) => {
            let reply = str::from_utf8(reply.as_slice())?;
            format!(in alloc; "{who}{id} {reply};")?
        }
        What::Missed { before, after } => format!(in alloc; "{who}{id} missed {before} {after};")?,
    })
}

fn told(alloc: Global, sends: &Sends) -> Result<String, Fail> {
    let mut told = String::new(alloc);
    for one in sends.as_slice() {
        told.push_str(&sent(alloc, one)?)?;
    }
    Ok(told)
}

fn outcome(alloc: Global, came: Result<Sends, StepRefusal>) -> Result<String, Fail> {
    match came {
        Ok(sends) => told(alloc, &sends),
        Err(StepRefusal::ReloadFailed { before, after }) => {
            Ok(format!(in alloc; "reload failed {before} {after}")?)
        }
        Err(refusal) => Ok(format!(in alloc; "{refusal}")?),
    }
}

fn step(alloc: Global, live: &mut Live<MemAsker>, happening: Happening) -> Result<String, Fail> {
    let event = event(alloc, happening)?;
    outcome(alloc, live.step(alloc, event))
}

// The first row of which something else came.
fn play(alloc: Global, fails: u64, rows: &[Row]) -> Result<Option<String>, Fail> {
    let mut live = Live::new(alloc, asker(alloc, fails)?);
    for (happening, want) in rows {
        let came = step(alloc, &mut live, *happening)?;
        if came.as_str() != *want {
            return Ok(Some(came));
        }
    }
    Ok(None)
}

static DIFFERENT: [Row; 6] = [
    (Subscribe(1, "a"), "1a Bob;"),
    (Tick, ""),
    (Reload, ""),
    (Tick, "1a Rob;"),
    (Complete(1, "a"), ""),
    (Tick, ""),
];

#[test]
fn a_reply_is_sent_where_it_differs(rt: HostRuntime) -> Result<(), Fail> {
    assert!(rt; play(rt.alloc(), 0, &DIFFERENT)?.is_none());
    Ok(())
}

static SAME: [Row; 4] = [
    (Subscribe(2, "a"), "2a x;"),
    (Reload, ""),
    (Tick, ""),
    (Tick, ""),
];

#[test]
fn a_reload_that_a_session_cannot_see_sends_nothing(rt: HostRuntime) -> Result<(), Fail> {
    assert!(rt; play(rt.alloc(), 0, &SAME)?.is_none());
    Ok(())
}

static MISSED_FIRST: [Row; 3] = [
    (Subscribe(1, "a"), "1a missed 0 1;"),
    (Tick, "1a Bob;"),
    (Tick, ""),
];

static MISSED_LATER: [Row; 3] = [
    (Subscribe(1, "a"), "1a Bob;"),
    (Tick, "1a missed 0 1;"),
    (Tick, ""),
];

#[test]
fn a_miss_keeps_the_last_reply(rt: HostRuntime) -> Result<(), Fail> {
    assert!(rt; play(rt.alloc(), 1, &MISSED_FIRST)?.is_none());
    assert!(rt; play(rt.alloc(), 2, &MISSED_LATER)?.is_none());
    Ok(())
}

static NAMES: [Row; 11] = [
    (Subscribe(1, "a"), "1a Bob;"),
    (Subscribe(2, "a"), "2a x;"),
    (Subscribe(1, "a"), "repeated"),
    (Complete(1, "b"), ""),
    (Complete(3, "a"), ""),
    (Complete(2, "a"), ""),
    (Gone(2), ""),
    (Subscribe(1, "b"), "1b Bob;"),
    (Reload, ""),
    (Tick, "1a Rob;1b Rob;"),
    (Gone(1), ""),
];

#[test]
fn another_of_the_same_name_stays(rt: HostRuntime) -> Result<(), Fail> {
    assert!(rt; play(rt.alloc(), 0, &NAMES)?.is_none());
    Ok(())
}

static RELOADS: [Row; 8] = [
    (Subscribe(2, "a"), "2a x;"),
    (Reload, "reload failed 0 1"),
    (Tick, ""),
    (Reload, ""),
    (Reload, ""),
    (Tick, "2a y;"),
    (Reload, ""),
    (Tick, ""),
];

#[test]
fn a_reload_that_fails_takes_no_database(rt: HostRuntime) -> Result<(), Fail> {
    assert!(rt; play(rt.alloc(), 2, &RELOADS)?.is_none());
    Ok(())
}

// Whether 100 subscriptions of the first subscriber are taken.
fn takes_100(alloc: Global, live: &mut Live<MemAsker>) -> Result<bool, Fail> {
    for number in 0..100u32 {
        let id = text(alloc, &format!(in alloc; "{number}")?)?;
        let event = subscribed(alloc, 1, id)?;
        if live.step(alloc, event).is_err() {
            return Ok(false);
        }
    }
    Ok(true)
}

#[test]
fn a_subscriber_has_at_most_100_subscriptions(rt: HostRuntime) -> Result<(), Fail> {
    let alloc = rt.alloc();
    let mut live = Live::new(alloc, asker(alloc, 0)?);
    assert!(rt; takes_100(alloc, &mut live)?);
    assert!(rt; step(alloc, &mut live, Subscribe(1, "7"))?.as_str() == "repeated");
    assert!(rt; step(alloc, &mut live, Subscribe(1, "a"))?.as_str() == "too many");
    assert!(rt; step(alloc, &mut live, Subscribe(2, "a"))?.as_str() == "2a x;");
    assert!(rt; live.into_asker().next.len() == 2);
    Ok(())
}

#[test]
fn events_run_in_order(rt: HostRuntime) -> Result<(), Fail> {
    let alloc = rt.alloc();
    let mut live = Live::new(alloc, asker(alloc, 0)?);
    let mut events = List::new(alloc);
    for (happening, _) in &DIFFERENT {
        events.push(event(alloc, *happening)?)?;
    }
    assert!(rt; outcome(alloc, live.run(alloc, events))?.as_str() == "1a Bob;1a Rob;");
    Ok(())
}
