use crate::Body;
use hq_base::{Bytes, List, Txt};
use hq_model::Session;

/// A subscription: whose it is and its name, who asks and what, and the last reply that it was sent.
#[derive(Drop)]
pub struct Subscription {
    pub who: u32,
    pub id: Txt,
    pub session: Session,
    pub body: Body,
    pub last: Option<Bytes>,
}

/// What happens to live queries.
#[derive(Drop)]
pub enum Event {
    /// A subscription begins, and is asked.
    Subscribe {
        who: u32,
        id: Txt,
        session: Session,
        body: Body,
    },
    /// All subscriptions are asked, in order of subscribing.
    Tick,
    /// The next database is taken. Nothing is asked.
    Reload,
    /// A subscription ends.
    Complete {
        who: u32,
        id: Txt,
    },
    /// All subscriptions of a subscriber end.
    Gone {
        who: u32,
    },
}

/// What a subscription is sent.
#[derive(Drop)]
pub enum What {
    /// A reply that differs from the last one.
    Reply(Bytes),
    /// Asking failed, and the asker's count of faults rose from the first to the second.
    Missed { before: u64, after: u64 },
}

/// What is sent, and to which subscription.
#[derive(Drop)]
pub struct Sent {
    pub who: u32,
    pub id: Txt,
    pub what: What,
}

/// What is sent, in order.
pub type Sends = List<Sent>;
