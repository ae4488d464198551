ghost use Rattle.std.specs.Prelude.{◌≡◌, not, filter};
ghost use Rattle.hq_live.specs.Steps.{is_of, is_by};

use crate::Subscription;
use hq_base::Txt;

// Whether a subscription has another subscriber or another name.
fn is_other(subscription: &Subscription, who: u32, id: &Txt) -> bool
    ensures { result ≡ not (is_of who id.now subscription.now) }
{
    !(subscription.who == who && subscription.id == *id)
}

// Whether a subscription has another subscriber.
fn is_by_other(subscription: &Subscription, who: u32) -> bool
    ensures { result ≡ not (is_by who subscription.now) }
{
    !(subscription.who == who)
}

/// Ends a subscription. Takes no memory.
pub fn end(subscriptions: &mut Vec<Subscription>, who: u32, id: &Txt)
    ensures { subscriptions.new.items ≡ filter (λ s. not (is_of who id.now s)) subscriptions.old.items }
{
    subscriptions.retain(|subscription| is_other(subscription, who, id));
}

/// Ends all subscriptions of a subscriber. Takes no memory.
pub fn end_all(subscriptions: &mut Vec<Subscription>, who: u32)
    ensures { subscriptions.new.items ≡ filter (λ s. not (is_by who s)) subscriptions.old.items }
{
    subscriptions.retain(|subscription| is_by_other(subscription, who));
}
