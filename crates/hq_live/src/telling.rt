ghost use Rattle.std.specs.Prelude.{◌≡◌, ◌++◌, IfOk, OnOk};
ghost use Rattle.hq_live.specs.Answers.{news, news_all};

use crate::answer::Polled;
use crate::{Sends, Sent, Subscription, What};
use hq_base::{Bytes, List, Memory};
use std::alloc::Global;

/// Adds what a subscription is sent for this answer.
pub fn add_news(
    alloc: Global,
    sends: &mut Sends,
    subscription: &Subscription,
    answer: &Polled,
) -> Result<(), Memory>
    ensures { OnOk result (sends.new ≡ sends.old ++ news subscription.now answer.now) }
{
    let what = match answer {
        Polled::Same => return Ok(()),
        Polled::News(reply) => What::Reply(Bytes::from_slice(alloc, reply.as_slice())?),
        Polled::Missed { before, after } => What::Missed {
            before: *before,
            after: *after,
        },
    };
    sends.push(Sent {
        who: subscription.who,
        id: subscription.id.copy(alloc)?,
        what,
    })
}

/// What subscriptions are sent for these answers, in order.
pub fn news_of_all(
    alloc: Global,
    subscriptions: &[Subscription],
    answers: &[Polled],
) -> Result<Sends, Memory>
    ensures { IfOk result (λ sends. sends ≡ news_all subscriptions.now answers.now) }
{
    let mut sends = List::new(alloc);
    let mut rest = answers;
    'telling: for subscription in subscriptions {
        let [answer, others @ ..] = rest else {
            break;
        };
        add_news(alloc, &mut sends, subscription, answer)?;
        rest = others;
    }
    Ok(sends)
}
