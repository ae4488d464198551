ghost use Rattle.std.specs.Prelude.{◌≡◌, ◌≤◌, [], map, IfOk, OnOk, IsErrOf, Some};
ghost use Rattle.hq_io.specs.Causes.{Rose};
ghost use Rattle.hq_live.specs.Asking.{KeepsFiles};
ghost use Rattle.hq_live.specs.Runs.{standing};
ghost use Rattle.hq_session.specs.Hook.{KeepsRule};
ghost use Rattle.hq_messages.specs.Messages.{Sends};
ghost use Rattle.hq_messages.specs.declared.messages.Out.TheVariants as out;
ghost use Rattle.hq_live_talk.specs.Table.{said_by, talk_of};
ghost use Rattle.hq_live_talk.specs.Talks.{IsOwn, Leaves, Talks, TalksUntil, Turned, link_of};

use crate::answering::{Talking, answer};
use crate::end::end_of;
use crate::{Said, TalkEnd, read_message};
use hq_base::{Bytes, Memory};
use hq_live::{Asker, Event, Live};
use hq_messages::{In, LinkRefusal, Messages};
use hq_session::{Headers, Hook, HookAnswer, HookRule};
use std::alloc::Global;

/// The most messages of a talk.
pub const MOST: usize = 10_000;

// What a message says.
fn said_by(alloc: Global, message: &In) -> Result<Said, Memory>
    ensures { IfOk result (λ said. said ≡ said_by message.now) }
{
    match message {
        In::Text(text) => read_message(alloc, text.as_slice()),
        In::Idle => Ok(Said::Pong),
        In::Other | In::Ended => Ok(Said::Bad),
    }
}

// Sends texts, in order.
fn send_all<M: Messages>(alloc: Global, link: &mut M, texts: &[Bytes]) -> Result<(), LinkRefusal>
    ensures sent { OnOk result (Sends (M.sent link.old) (M.sent link.new) (map out.Text texts.now)) }
    ensures left { M.left link.new ≡ M.left link.old }
    ensures failed { IsErrOf result LinkRefusal.Failed → Rose (M.faults link.old) (M.faults link.new) }
    ensures later { M.faults link.old ≤ M.faults link.new }
{
    'sending: for text in texts {
        link.send(alloc, text.as_slice())?;
    }
    Ok(())
}

// Answers one message. Gives the end, if it is one.
fn take_turn<M: Messages, A: Asker, P: HookRule, F: Fn(&Headers) -> HookAnswer>(
    alloc: Global,
    link: &mut M,
    live: &mut Live<A>,
    hook: &Hook<P, F>,
    who: u32,
    talking: &mut Talking,
) -> Option<TalkEnd>
    requires { KeepsRule F.Fn P.allows hook.now }
    ensures turned { Turned (P.allows hook.now.rule) who
        (talk_of talking.old.session talking.old.once.items (standing (A.due live.old.asker) (A.next live.old.asker) (A.faults live.old.asker) live.old.subscriptions.items))
        (talk_of talking.new.session talking.new.once.items (standing (A.due live.new.asker) (A.next live.new.asker) (A.faults live.new.asker) live.new.subscriptions.items))
        (link_of (M.left link.old) (M.sent link.old)) (link_of (M.left link.new) (M.sent link.new)) result }
    ensures failed { result ≡ Some TalkEnd.LinkFault → Rose (M.faults link.old) (M.faults link.new) }
    ensures later { M.faults link.old ≤ M.faults link.new }
    ensures files { KeepsFiles A.reads live.old.asker live.new.asker }
    ensures asker_later { A.faults live.old.asker ≤ A.faults live.new.asker }
    ensures own { IsOwn who live.old.subscriptions.items → IsOwn who live.new.subscriptions.items }
{
    let message = match link.recv(alloc) {
        Ok(In::Ended) => return Some(TalkEnd::Ended),
        Ok(message) => message,
        Err(refusal) => return Some(end_of(refusal)),
    };
    let Ok(said) = said_by(alloc, &message) else {
        return Some(TalkEnd::Memory);
    };
    let Ok(answered) = answer(alloc, live, hook, who, talking, said) else {
        return Some(TalkEnd::Memory);
    };
    if let Err(refusal) = send_all(alloc, link, &answered.texts) {
        return Some(end_of(refusal));
    }
    let Some(code) = answered.code else {
        return None;
    };
    match link.close(alloc, code) {
        Ok(()) => Some(TalkEnd::Closed { code }),
        Err(refusal) => Some(end_of(refusal)),
    }
}

// Answers messages until the end.
fn take_turns<M: Messages, A: Asker, P: HookRule, F: Fn(&Headers) -> HookAnswer>(
    alloc: Global,
    link: &mut M,
    live: &mut Live<A>,
    hook: &Hook<P, F>,
    who: u32,
    talking: &mut Talking,
) -> TalkEnd
    requires { KeepsRule F.Fn P.allows hook.now }
    ensures talks { TalksUntil (P.allows hook.now.rule) who
        (talk_of talking.old.session talking.old.once.items (standing (A.due live.old.asker) (A.next live.old.asker) (A.faults live.old.asker) live.old.subscriptions.items))
        (talk_of talking.new.session talking.new.once.items (standing (A.due live.new.asker) (A.next live.new.asker) (A.faults live.new.asker) live.new.subscriptions.items))
        (link_of (M.left link.old) (M.sent link.old)) (link_of (M.left link.new) (M.sent link.new)) result }
    ensures failed { result ≡ TalkEnd.LinkFault → Rose (M.faults link.old) (M.faults link.new) }
    ensures later { M.faults link.old ≤ M.faults link.new }
    ensures files { KeepsFiles A.reads live.old.asker live.new.asker }
    ensures asker_later { A.faults live.old.asker ≤ A.faults live.new.asker }
    ensures own { IsOwn who live.old.subscriptions.items → IsOwn who live.new.subscriptions.items }
{
    'turns: for done in 0..MOST {
        match take_turn(alloc, link, live, hook, who, talking) {
            None => {}
            Some(end) => return end,
        }
    }
    TalkEnd::Spent
}

// Ends all subscriptions of a subscriber.
fn leave<A: Asker>(alloc: Global, live: &mut Live<A>, who: u32)
    requires { IsOwn who live.old.subscriptions.items }
    ensures leaves { Leaves (standing (A.due live.old.asker) (A.next live.old.asker) (A.faults live.old.asker) live.old.subscriptions.items)
        (standing (A.due live.new.asker) (A.next live.new.asker) (A.faults live.new.asker) live.new.subscriptions.items) }
    ensures files { KeepsFiles A.reads live.old.asker live.new.asker }
{
    match live.step(alloc, Event::Gone { who }) {
        Ok(_) | Err(_) => {}
    }
}

/// Talks with a peer: answers its messages one after the other, as the table says, until none is left, one is closed, or 10,000
/// were answered. Whoever the peer is is what the hook answers to its `connection_init`. The live queries have no subscription
/// before it and none behind it.
pub fn talk<M: Messages, A: Asker, P: HookRule, F: Fn(&Headers) -> HookAnswer>(
    alloc: Global,
    link: &mut M,
    live: &mut Live<A>,
    hook: &Hook<P, F>,
    who: u32,
) -> TalkEnd
    requires keeps { KeepsRule F.Fn P.allows hook.now }
    requires none { live.old.subscriptions.items ≡ [] }

    // The messages that were answered, what was sent for them, and how it ended.
    ensures talks { Talks (P.allows hook.now.rule) who
        (standing (A.due live.old.asker) (A.next live.old.asker) (A.faults live.old.asker) live.old.subscriptions.items)
        (standing (A.due live.new.asker) (A.next live.new.asker) (A.faults live.new.asker) live.new.subscriptions.items)
        (link_of (M.left link.old) (M.sent link.old)) (link_of (M.left link.new) (M.sent link.new)) result }

    // No subscription is left.
    ensures none { live.new.subscriptions.items ≡ [] }

    // A failed link is told only where its count rose, and no count falls. Files that the asker reads from stay those of their folder.
    ensures failed { result ≡ TalkEnd.LinkFault → Rose (M.faults link.old) (M.faults link.new) }
    ensures later { M.faults link.old ≤ M.faults link.new }
    ensures files { KeepsFiles A.reads live.old.asker live.new.asker }
    ensures asker_later { A.faults live.old.asker ≤ A.faults live.new.asker }
{
    let mut talking = Talking {
        session: None,
        once: Vec::new(alloc),
    };
    let end = take_turns(alloc, link, live, hook, who, &mut talking);
    leave(alloc, live, who);
    end
}
