ghost use Rattle.hq_live_talk.specs.Talks.{IsEndOf};

use hq_messages::LinkRefusal;

/// How a talk ended.
#[derive(Clone, Copy, Debug, PartialEq, Eq)]
pub enum TalkEnd {
    /// The peer has no message left.
    Ended,
    /// A message was closed with this code.
    Closed { code: u16 },
    /// The last message of a talk was answered.
    Spent,
    /// The link failed, and its count of faults rose.
    LinkFault,
    Memory,
}

/// The end behind a refusal.
pub fn end_of(refusal: LinkRefusal) -> TalkEnd
    ensures { IsEndOf refusal result }
{
    match refusal {
        LinkRefusal::Failed => TalkEnd::LinkFault,
        LinkRefusal::Memory => TalkEnd::Memory,
    }
}
