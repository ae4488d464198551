//! What follows each message.
ghost use Rattle.std.specs.Prelude.{◌≡◌, ◌≤◌, IfOk, OnOk, Option};
ghost use Rattle.hq_live.specs.Asking.{KeepsFiles};
ghost use Rattle.hq_live.specs.Runs.{Standing, standing};
ghost use Rattle.hq_model.specs.declared.session.Session.{Session as Caller};
ghost use Rattle.hq_live.specs.declared.event.Event.TheVariants as event;
ghost use Rattle.hq_session.specs.Hook.{KeepsRule};
ghost use Rattle.hq_live_talk.specs.Table.{Begins, Inits, Refuses, Reloads, Subscribes, Pings, Completes, Row, once_with, talk_of};
ghost use Rattle.hq_live_talk.specs.Talks.{IsOwn};

use crate::Said;
use crate::answered::{Answered, one_text};
use crate::copying::copy_session;
use crate::stepping::step;
use crate::texts::{ACK, PONG, TOO_MANY, error_text};
use crate::told::{forget, tell_all};
use hq_base::{Bytes, Memory, Txt};
use hq_live::{Asker, Body, Event, Live, StepRefusal};
use hq_model::Session;
use hq_session::{Headers, Hook, HookAnswer, HookRule};
use std::alloc::Global;

/// What is kept of a talk beside the live queries: the session, and the names of the subscriptions that are answered once and were
/// not yet.
#[derive(Drop)]
pub struct Talking {
    pub session: Option<Session>,
    pub once: Vec<Txt>,
}

// A message of another form closes.
fn refuse(alloc: Global, talking: &Talking, before: u16, behind: u16) -> Answered
    ensures { (live : Standing) → Refuses talking.now.session before behind (talk_of talking.now.session talking.now.once.items live)
        (talk_of talking.now.session talking.now.once.items live) result.texts.items result.code }
{
    match talking.session {
        None => Answered::closed(alloc, before),
        Some(_) => Answered::closed(alloc, behind),
    }
}

// Answers `connection_init`.
fn init<P: HookRule, F: Fn(&Headers) -> HookAnswer>(
    alloc: Global,
    hook: &Hook<P, F>,
    talking: &mut Talking,
    headers: &Headers,
) -> Result<Answered, Memory>
    requires { KeepsRule F.Fn P.allows hook.now }
    ensures { IfOk result (λ answered. (live : Standing) → Inits (P.allows hook.now.rule) headers.now talking.old.session
        (talk_of talking.old.session talking.old.once.items live) (talk_of talking.new.session talking.new.once.items live) answered.texts.items answered.code) }
{
    if talking.session.is_some() {
        return Ok(Answered::closed(alloc, 4429));
    }
    match hook.ask(headers) {
        HookAnswer::Session(session) => {
            let ack = Bytes::from_slice(alloc, ACK)?;
            let texts = one_text(alloc, ack)?;
            talking.session = Some(session);
            Ok(Answered::texts(texts))
        }
        HookAnswer::Denied => Ok(Answered::closed(alloc, 4403)),
        HookAnswer::Memory => Err(Memory),
    }
}

// Keeps the name of a subscription that does not last.
fn keep(once: &mut Vec<Txt>, id: Txt, is_lasting: bool) -> Result<(), Memory>
    ensures { OnOk result (once.new.items ≡ once_with is_lasting id once.old.items) }
{
    if !is_lasting {
        once.push(id)?;
    }
    Ok(())
}

// Begins a subscription for a session.
fn begin<A: Asker>(
    alloc: Global,
    live: &mut Live<A>,
    who: u32,
    once: &mut Vec<Txt>,
    id: Txt,
    session: Session,
    body: Body,
    is_lasting: bool,
) -> Result<Answered, Memory>
    ensures begins { IfOk result (λ answered. (kept : Option Caller) → Begins who id (once_with is_lasting id once.old.items) (event.Subscribe who id session body)
        (talk_of kept once.old.items (standing (A.due live.old.asker) (A.next live.old.asker) (A.faults live.old.asker) live.old.subscriptions.items))
        (talk_of kept once.new.items (standing (A.due live.new.asker) (A.next live.new.asker) (A.faults live.new.asker) live.new.subscriptions.items))
        answered.texts.items answered.code) }
    ensures files { KeepsFiles A.reads live.old.asker live.new.asker }
    ensures later { A.faults live.old.asker ≤ A.faults live.new.asker }
    ensures own { IsOwn who live.old.subscriptions.items → IsOwn who live.new.subscriptions.items }
{
    let name = id.copy(alloc)?;
    let event = Event::Subscribe {
        who,
        id,
        session,
        body,
    };
    match step(alloc, live, who, event) {
        Ok(sends) => {
            keep(once, name, is_lasting)?;
            let mut texts = Vec::new(alloc);
            tell_all(alloc, live, who, once, &mut texts, sends.as_slice())?;
            Ok(Answered { texts, code: None })
        }
        Err(StepRefusal::Repeated) => Ok(Answered::closed(alloc, 4409)),
        Err(StepRefusal::TooMany) => {
            let text = error_text(alloc, &name, TOO_MANY)?;
            let told = one_text(alloc, text)?;
            Ok(Answered {
                texts: told,
                code: None,
            })
        }
        // A reload alone is refused for another cause.
        Err(StepRefusal::Memory | StepRefusal::ReloadFailed { .. }) => Err(Memory),
    }
}

// Answers `subscribe`.
fn subscribe<A: Asker>(
    alloc: Global,
    live: &mut Live<A>,
    who: u32,
    talking: &mut Talking,
    id: Txt,
    body: Body,
    is_lasting: bool,
) -> Result<Answered, Memory>
    ensures row { IfOk result (λ answered. Subscribes who id body is_lasting talking.old.session
        (talk_of talking.old.session talking.old.once.items (standing (A.due live.old.asker) (A.next live.old.asker) (A.faults live.old.asker) live.old.subscriptions.items))
        (talk_of talking.new.session talking.new.once.items (standing (A.due live.new.asker) (A.next live.new.asker) (A.faults live.new.asker) live.new.subscriptions.items))
        answered.texts.items answered.code) }
    ensures files { KeepsFiles A.reads live.old.asker live.new.asker }
    ensures later { A.faults live.old.asker ≤ A.faults live.new.asker }
    ensures own { IsOwn who live.old.subscriptions.items → IsOwn who live.new.subscriptions.items }
{
    let Some(session) = &talking.session else {
        return Ok(Answered::closed(alloc, 4401));
    };
    let session = copy_session(alloc, session)?;
    begin(
        alloc,
        live,
        who,
        &mut talking.once,
        id,
        session,
        body,
        is_lasting,
    )
}

// Takes the next database. That it was not taken changes nothing.
fn reload<A: Asker>(alloc: Global, live: &mut Live<A>, who: u32) -> Result<(), Memory>
    ensures reloads { OnOk result (Reloads
        (standing (A.due live.old.asker) (A.next live.old.asker) (A.faults live.old.asker) live.old.subscriptions.items)
        (standing (A.due live.new.asker) (A.next live.new.asker) (A.faults live.new.asker) live.new.subscriptions.items)) }
    ensures files { KeepsFiles A.reads live.old.asker live.new.asker }
    ensures later { A.faults live.old.asker ≤ A.faults live.new.asker }
    ensures own { IsOwn who live.old.subscriptions.items → IsOwn who live.new.subscriptions.items }
{
    match step(alloc, live, who, Event::Reload) {
        Ok(_) | Err(StepRefusal::ReloadFailed { .. }) => Ok(()),
        // A reload repeats nothing.
        Err(StepRefusal::Memory | StepRefusal::Repeated | StepRefusal::TooMany) => Err(Memory),
    }
}

// Answers `ping`.
fn ping<A: Asker>(
    alloc: Global,
    live: &mut Live<A>,
    who: u32,
    talking: &mut Talking,
) -> Result<Answered, Memory>
    ensures row { IfOk result (λ answered. Pings who talking.old.session
        (talk_of talking.old.session talking.old.once.items (standing (A.due live.old.asker) (A.next live.old.asker) (A.faults live.old.asker) live.old.subscriptions.items))
        (talk_of talking.new.session talking.new.once.items (standing (A.due live.new.asker) (A.next live.new.asker) (A.faults live.new.asker) live.new.subscriptions.items))
        answered.texts.items answered.code) }
    ensures files { KeepsFiles A.reads live.old.asker live.new.asker }
    ensures later { A.faults live.old.asker ≤ A.faults live.new.asker }
    ensures own { IsOwn who live.old.subscriptions.items → IsOwn who live.new.subscriptions.items }
{
    let pong = Bytes::from_slice(alloc, PONG)?;
    let mut texts = one_text(alloc, pong)?;
    let Some(_session) = &talking.session else {
        return Ok(Answered::texts(texts));
    };
    reload(alloc, live, who)?;
    let Ok(sends) = step(alloc, live, who, Event::Tick) else {
        // A tick is refused for want of memory alone.
        return Err(Memory);
    };
    tell_all(
        alloc,
        live,
        who,
        &mut talking.once,
        &mut texts,
        sends.as_slice(),
    )?;
    Ok(Answered { texts, code: None })
}

// Answers `complete`.
fn complete<A: Asker>(
    alloc: Global,
    live: &mut Live<A>,
    who: u32,
    talking: &mut Talking,
    id: Txt,
) -> Result<Answered, Memory>
    ensures row { IfOk result (λ answered. Completes who id
        (talk_of talking.old.session talking.old.once.items (standing (A.due live.old.asker) (A.next live.old.asker) (A.faults live.old.asker) live.old.subscriptions.items))
        (talk_of talking.new.session talking.new.once.items (standing (A.due live.new.asker) (A.next live.new.asker) (A.faults live.new.asker) live.new.subscriptions.items))
        answered.texts.items answered.code) }
    ensures files { KeepsFiles A.reads live.old.asker live.new.asker }
    ensures later { A.faults live.old.asker ≤ A.faults live.new.asker }
    ensures own { IsOwn who live.old.subscriptions.items → IsOwn who live.new.subscriptions.items }
{
    forget(&mut talking.once, &id);
    match step(alloc, live, who, Event::Complete { who, id }) {
        Ok(_) => Ok(Answered::silent(alloc)),
        // Ending is never refused.
        Err(_) => Err(Memory),
    }
}

/// Answers what a peer says.
pub fn answer<A: Asker, P: HookRule, F: Fn(&Headers) -> HookAnswer>(
    alloc: Global,
    live: &mut Live<A>,
    hook: &Hook<P, F>,
    who: u32,
    talking: &mut Talking,
    said: Said,
) -> Result<Answered, Memory>
    requires { KeepsRule F.Fn P.allows hook.now }
    ensures row { IfOk result (λ answered. Row (P.allows hook.now.rule) who said
        (talk_of talking.old.session talking.old.once.items (standing (A.due live.old.asker) (A.next live.old.asker) (A.faults live.old.asker) live.old.subscriptions.items))
        (talk_of talking.new.session talking.new.once.items (standing (A.due live.new.asker) (A.next live.new.asker) (A.faults live.new.asker) live.new.subscriptions.items))
        answered.texts.items answered.code) }
    ensures files { KeepsFiles A.reads live.old.asker live.new.asker }
    ensures later { A.faults live.old.asker ≤ A.faults live.new.asker }
    ensures own { IsOwn who live.old.subscriptions.items → IsOwn who live.new.subscriptions.items }
{
    match said {
        Said::Init(headers) => init(alloc, hook, talking, &headers),
        Said::BadInit => Ok(refuse(alloc, talking, 4400, 4429)),
        Said::Subscribe {
            id,
            body,
            is_lasting,
        } => subscribe(alloc, live, who, talking, id, body, is_lasting),
        Said::BadSubscribe => Ok(refuse(alloc, talking, 4401, 4400)),
        Said::Ping => ping(alloc, live, who, talking),
        Said::Pong => Ok(Answered::silent(alloc)),
        Said::Complete { id } => complete(alloc, live, who, talking, id),
        Said::Bad => Ok(Answered::closed(alloc, 4400)),
    }
}
