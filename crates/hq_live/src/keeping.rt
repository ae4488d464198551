ghost use Rattle.std.specs.Prelude.{◌≡◌};
ghost use Rattle.hq_live.specs.Answers.{kept, kept_all};

use crate::Subscription;
use crate::answer::Polled;

/// Keeps the reply that a subscription is sent.
pub fn keep(subscription: &mut Subscription, answer: Polled)
    ensures { subscription.new ≡ kept subscription.old answer }
{
    match answer {
        Polled::News(reply) => subscription.last = Some(reply),
        Polled::Same | Polled::Missed { .. } => {}
    }
}

/// Keeps the replies that subscriptions are sent. Takes no memory.
pub fn keep_all(subscriptions: &mut [Subscription], answers: Vec<Polled>)
    ensures { subscriptions.new ≡ kept_all subscriptions.old answers.items }
{
    let mut at = 0;
    'keeping: for answer in answers {
        if at < subscriptions.len() {
            keep(&mut subscriptions[at], answer);
            at += 1;
        }
    }
}
