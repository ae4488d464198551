ghost use Rattle.std.specs.Prelude.{◌≡◌, ◌≤◌, ◌↔◌, Some, IfOk, IsTrue};
ghost use Rattle.hq_live.specs.Answers.{IsAnswer, AreAnswers};
ghost use Rattle.hq_live.specs.Asking.{KeepsFiles};

use crate::{Asked, Asker, Subscription};
use hq_base::{Bytes, Memory};
use std::alloc::Global;

/// What asking for a subscription gave.
#[derive(Drop)]
pub enum Polled {
    /// The due reply is the last one.
    Same,
    /// The due reply, which differs from the last one.
    News(Bytes),
    /// Asking failed, and the asker's count of faults rose from the first to the second.
    Missed { before: u64, after: u64 },
}

// Whether this is the last reply of a subscription.
fn is_last(subscription: &Subscription, reply: &Bytes) -> bool
    ensures { IsTrue result ↔ (subscription.now.last ≡ Some reply.now) }
{
    match &subscription.last {
        Some(last) => last.as_slice() == reply.as_slice(),
        None => false,
    }
}

/// Asks for a subscription.
pub fn ask<A: Asker>(
    alloc: Global,
    asker: &mut A,
    subscription: &Subscription,
) -> Result<Polled, Memory>
    ensures answer { IfOk result (IsAnswer (A.due asker.old) subscription.now (A.faults asker.old) (A.faults asker.new)) }
    ensures due { A.due asker.new ≡ A.due asker.old }
    ensures next { A.next asker.new ≡ A.next asker.old }
    ensures files { KeepsFiles A.reads asker.old asker.new }
    ensures later { A.faults asker.old ≤ A.faults asker.new }
{
    match asker.ask(alloc, &subscription.session, subscription.body.as_slice()) {
        Asked::Reply(reply) => {
            if is_last(subscription, &reply) {
                Ok(Polled::Same)
            } else {
                Ok(Polled::News(reply))
            }
        }
        Asked::Failed { before, after } => Ok(Polled::Missed { before, after }),
        Asked::Memory => Err(Memory),
    }
}

/// Asks for all subscriptions, in order.
pub fn ask_all<A: Asker>(
    alloc: Global,
    asker: &mut A,
    subscriptions: &[Subscription],
) -> Result<Vec<Polled>, Memory>
    ensures answers { IfOk result (λ answers. AreAnswers (A.due asker.old) (A.faults asker.old) (A.faults asker.new) subscriptions.now answers.items) }
    ensures due { A.due asker.new ≡ A.due asker.old }
    ensures next { A.next asker.new ≡ A.next asker.old }
    ensures files { KeepsFiles A.reads asker.old asker.new }
    ensures later { A.faults asker.old ≤ A.faults asker.new }
{
    let mut answers = Vec::new(alloc);
    'asking: for subscription in subscriptions {
        let answer = ask(alloc, asker, subscription)?;
        answers.push(answer)?;
    }
    Ok(answers)
}
