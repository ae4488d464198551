//! What subscriptions are sent, as texts; and the end of those that are over then.
ghost use Rattle.std.specs.Prelude.{◌≡◌, ◌≤◌, ◌++◌, OnOk, not, bytes_eq, filter};
ghost use Rattle.hq_live.specs.Asking.{KeepsFiles};
ghost use Rattle.hq_live.specs.Steps.{is_of};
ghost use Rattle.hq_live_talk.specs.Table.{is_once, is_over, texts_for, reply_texts, without, once_after, subscriptions_after, told_texts, told_once, told_subscriptions};
ghost use Rattle.hq_live_talk.specs.Talks.{IsOwn};

use crate::stepping::step;
use crate::texts::{complete_text, error_text, errors_in, next_text, tells_fault};
use hq_base::{Bytes, Memory, Txt};
use hq_live::{Asker, Event, Live, Sent, What};
use std::alloc::Global;

// Whether the subscription of this name is answered once.
fn is_once(once: &[Txt], id: &Txt) -> bool
    ensures { result ≡ is_once once.now id.now }
{
    once.iter().any(|name| *name == *id)
}

// Whether a subscription is over behind what it is sent.
fn is_over(once: &[Txt], id: &Txt, what: &What) -> bool
    ensures { result ≡ is_over once.now id.now what.now }
{
    match what {
        What::Reply(reply) => tells_fault(reply.as_slice()) || is_once(once, id),
        What::Missed { .. } => false,
    }
}

// Adds the texts for a reply.
fn add_reply(
    alloc: Global,
    texts: &mut Vec<Bytes>,
    once: &[Txt],
    id: &Txt,
    reply: &[u8],
) -> Result<(), Memory>
    ensures { OnOk result (texts.new.items ≡ texts.old.items ++ reply_texts once.now id.now reply.now) }
{
    if tells_fault(reply) {
        texts.push(error_text(alloc, id, errors_in(reply))?)?;
        return Ok(());
    }
    texts.push(next_text(alloc, id, reply)?)?;
    if is_once(once, id) {
        texts.push(complete_text(alloc, id)?)?;
    }
    Ok(())
}

// Adds the texts for what a subscription is sent.
fn add_texts(
    alloc: Global,
    texts: &mut Vec<Bytes>,
    once: &[Txt],
    id: &Txt,
    what: &What,
) -> Result<(), Memory>
    ensures { OnOk result (texts.new.items ≡ texts.old.items ++ texts_for once.now id.now what.now) }
{
    match what {
        What::Reply(reply) => add_reply(alloc, texts, once, id, reply.as_slice()),
        What::Missed { .. } => Ok(()),
    }
}

// Whether a name is another one.
fn is_other(name: &Txt, id: &Txt) -> bool
    ensures { result ≡ not (bytes_eq name.now id.now) }
{
    !(*name == *id)
}

/// Takes this name away.
pub fn forget(once: &mut Vec<Txt>, id: &Txt)
    ensures { once.new.items ≡ without id.now once.old.items }
{
    once.retain(|name| is_other(name, id));
}

// Ends the subscription of this name.
fn end<A: Asker>(
    alloc: Global,
    live: &mut Live<A>,
    who: u32,
    once: &mut Vec<Txt>,
    id: &Txt,
) -> Result<(), Memory>
    ensures once { OnOk result (once.new.items ≡ without id.now once.old.items) }
    ensures subscriptions { OnOk result (live.new.subscriptions.items ≡ filter (λ s. not (is_of who id.now s)) live.old.subscriptions.items) }
    ensures due { A.due live.new.asker ≡ A.due live.old.asker }
    ensures next { A.next live.new.asker ≡ A.next live.old.asker }
    ensures files { KeepsFiles A.reads live.old.asker live.new.asker }
    ensures later { A.faults live.old.asker ≤ A.faults live.new.asker }
    ensures own { IsOwn who live.old.subscriptions.items → IsOwn who live.new.subscriptions.items }
{
    let event = Event::Complete {
        who,
        id: id.copy(alloc)?,
    };
    match step(alloc, live, who, event) {
        Ok(_) => {
            forget(once, id);
            Ok(())
        }
        // Ending is never refused.
        Err(_) => Err(Memory),
    }
}

// Adds the texts for what a subscription is sent, and ends it where it is over then.
fn tell<A: Asker>(
    alloc: Global,
    live: &mut Live<A>,
    who: u32,
    once: &mut Vec<Txt>,
    texts: &mut Vec<Bytes>,
    sent: &Sent,
) -> Result<(), Memory>
    ensures texts { OnOk result (texts.new.items ≡ texts.old.items ++ texts_for once.old.items sent.now.id sent.now.what) }
    ensures once { OnOk result (once.new.items ≡ once_after once.old.items sent.now) }
    ensures subscriptions { OnOk result (live.new.subscriptions.items ≡ subscriptions_after who once.old.items sent.now live.old.subscriptions.items) }
    ensures due { A.due live.new.asker ≡ A.due live.old.asker }
    ensures next { A.next live.new.asker ≡ A.next live.old.asker }
    ensures files { KeepsFiles A.reads live.old.asker live.new.asker }
    ensures later { A.faults live.old.asker ≤ A.faults live.new.asker }
    ensures own { IsOwn who live.old.subscriptions.items → IsOwn who live.new.subscriptions.items }
{
    add_texts(alloc, texts, once, &sent.id, &sent.what)?;
    if is_over(once, &sent.id, &sent.what) {
        end(alloc, live, who, once, &sent.id)?;
    }
    Ok(())
}

/// Adds the texts for all that is sent, in order, and ends what is over then.
pub fn tell_all<A: Asker>(
    alloc: Global,
    live: &mut Live<A>,
    who: u32,
    once: &mut Vec<Txt>,
    texts: &mut Vec<Bytes>,
    sends: &[Sent],
) -> Result<(), Memory>
    ensures texts { OnOk result (texts.new.items ≡ texts.old.items ++ told_texts once.old.items sends.now) }
    ensures once { OnOk result (once.new.items ≡ told_once once.old.items sends.now) }
    ensures subscriptions { OnOk result (live.new.subscriptions.items ≡ told_subscriptions who once.old.items sends.now live.old.subscriptions.items) }
    ensures due { A.due live.new.asker ≡ A.due live.old.asker }
    ensures next { A.next live.new.asker ≡ A.next live.old.asker }
    ensures files { KeepsFiles A.reads live.old.asker live.new.asker }
    ensures later { A.faults live.old.asker ≤ A.faults live.new.asker }
    ensures own { IsOwn who live.old.subscriptions.items → IsOwn who live.new.subscriptions.items }
{
    'telling: for sent in sends {
        tell(alloc, live, who, once, texts, sent)?;
    }
    Ok(())
}
