ghost use Rattle.std.specs.Prelude.{◌≡◌, ℕ, List, IsNone, IsSome, OnOk, OnErr, Some};
ghost use Rattle.std.specs.Borrow.{sem, Lends};
ghost use Rattle.std.specs.declared.option.Option.{Option};
ghost use Rattle.hq_io.specs.Causes.{HasCause, one_more};
ghost use Rattle.hq_io.specs.Links.{with_present};
ghost use Rattle.hq_messages.specs.Messages.{IsNextTalk};

use crate::Messages;
use thiserror::Error;

/// Listening or accepting failed, and the count of faults rose.
#[derive(Clone, Copy, Debug, PartialEq, Eq, Error)]
#[error("listening failed")]
pub struct HallFailed;

/// A place where peers connect by a WebSocket, one after the other.
///
/// A hall that tells its talks keeps them in order, each as it is now: those that were accepted, with what came and what
/// was sent, and those that are still to come.
pub trait Hall {
    /// What a peer is connected by.
    type Talk: Messages;

    /// All its talks in order, each as it is now, where they are told.
    ghost talks: { Self → Option (List Self.Talk) };

    /// How many talks were accepted. At the last value of a `u64` the count stays.
    ghost accepted: { Self → ℕ };

    /// The talk that was accepted last, until it is closed.
    ghost present: { Self → Option Self.Talk };

    /// How often it has failed.
    ghost faults: { Self → ℕ };

    /// The hall with another present talk.
    ghost with_talk: { Self → Self.Talk → Self };

    /// How often it has failed. At its last value the count stays.
    fn faults(&self) -> u64
        ensures { result ≡ faults self.now };

    /// Opens the hall at this port, so that peers can connect.
    fn listen(&mut self, port: u16) -> Result<(), HallFailed>
        ensures talks { talks self.new ≡ talks self.old }
        ensures accepted { accepted self.new ≡ accepted self.old }
        ensures present { present self.new ≡ present self.old }
        ensures cause { HasCause (faults self.old) (faults self.new) result };

    /// Makes the next talk the present one. Where the told talks are used up it is one without messages. It may wait
    /// for a peer.
    fn accept(&mut self) -> Result<(), HallFailed>
        ensures next { OnOk result (IsNextTalk Self.Talk.left (talks self.old) (accepted self.old) (present self.new)) }
        ensures accepted { OnOk result (accepted self.new ≡ one_more (accepted self.old)) }
        ensures talks { talks self.new ≡ talks self.old }
        ensures accepted_err { OnErr result (accepted self.new ≡ accepted self.old) }
        ensures present_err { OnErr result (present self.new ≡ present self.old) }
        ensures cause { HasCause (faults self.old) (faults self.new) result };

    /// Lends the present talk. What is done to it is done to the hall's talk, and all other talks stay.
    fn present(&mut self) -> &mut Self::Talk
        requires { IsSome (present self.old) }
        ensures* lends { sem 𝓛 (Lends Self.row Self.Talk.row self.entry result (with_talk self.entry.now)) }
        ensures value { present self.old ≡ Some result.now };

    /// Ends the present talk.
    fn close(&mut self)
        ensures present { IsNone (present self.new) }
        ensures talks { talks self.new ≡ talks self.old }
        ensures accepted { accepted self.new ≡ accepted self.old }
        ensures faults { faults self.new ≡ faults self.old };

    ghost with_talk_present: { (hall : Self) (talk : Self.Talk) → IsSome (present hall) → present (with_talk hall talk) ≡ Some talk };

    ghost with_talk_talks: { (hall : Self) (talk : Self.Talk) → IsSome (present hall) → talks (with_talk hall talk) ≡ with_present (talks hall) (accepted hall) talk };

    ghost with_talk_accepted: { (hall : Self) (talk : Self.Talk) → accepted (with_talk hall talk) ≡ accepted hall };

    ghost with_talk_faults: { (hall : Self) (talk : Self.Talk) → faults (with_talk hall talk) ≡ faults hall };
}
