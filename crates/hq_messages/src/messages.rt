ghost use Rattle.std.specs.Prelude.{◌≡◌, ◌≤◌, ℕ, List as Items, IsErrOf, OnOk, OnErr, Option};
ghost use Rattle.hq_io.specs.Causes.{Rose};
ghost use Rattle.hq_messages.specs.Messages.{Receives, Adds, came};
ghost use Rattle.hq_messages.specs.declared.messages.Message.{Message as Waiting};
ghost use Rattle.hq_messages.specs.declared.messages.Out.{Out as Told};
ghost use Rattle.hq_messages.specs.declared.messages.Out.TheVariants as out;

use crate::LinkRefusal;
use hq_base::Bytes;
use std::alloc::Global;

/// A message of the peer.
#[derive(Drop)]
pub enum Message {
    /// A text.
    Text(Bytes),
    /// A ping or a pong of the WebSocket itself.
    Idle,
    /// A message that is no text.
    Other,
}

/// What came in: a message, or that none is left.
#[derive(Drop)]
pub enum In {
    /// A text.
    Text(Bytes),
    /// A ping or a pong of the WebSocket itself.
    Idle,
    /// A message that is no text.
    Other,
    /// No message is left.
    Ended,
}

impl From<Message> for In {
    ghost from_gives = { λ message e. e ≡ came message };

    fn from(message: Message) -> Self {
        match message {
            Message::Text(text) => In::Text(text),
            Message::Idle => In::Idle,
            Message::Other => In::Other,
        }
    }
}

/// What went out.
#[derive(Drop)]
pub enum Out {
    /// A text.
    Text(Bytes),
    /// The code of a close.
    Close { code: u16 },
}

/// Messages in and out, of one peer.
pub trait Messages {
    /// The messages that are left, where they are told.
    ghost left: { Self → Option (Items Waiting) };

    /// What was sent, where it is told.
    ghost sent: { Self → Option (Items Told) };

    /// How often it has failed.
    ghost faults: { Self → ℕ };

    /// How often it has failed. At its last value the count stays.
    fn faults(&self) -> u64
        ensures { result ≡ faults self.now };

    /// The next message, or Ended where none is left. It may wait for the peer.
    fn recv(&mut self, alloc: Global) -> Result<In, LinkRefusal>
        ensures left { Receives (left self.old) (left self.new) result }
        ensures sent { sent self.new ≡ sent self.old }
        ensures failed { IsErrOf result LinkRefusal.Failed → Rose (faults self.old) (faults self.new) }
        ensures later { faults self.old ≤ faults self.new };

    /// Sends a text.
    fn send(&mut self, alloc: Global, text: &[u8]) -> Result<(), LinkRefusal>
        ensures left { left self.new ≡ left self.old }
        ensures sent { OnOk result (Adds (sent self.old) (sent self.new) (out.Text text.now)) }
        ensures unsent { OnErr result (sent self.new ≡ sent self.old) }
        ensures failed { IsErrOf result LinkRefusal.Failed → Rose (faults self.old) (faults self.new) }
        ensures later { faults self.old ≤ faults self.new };

    /// Closes the connection with this code.
    fn close(&mut self, alloc: Global, code: u16) -> Result<(), LinkRefusal>
        ensures left { left self.new ≡ left self.old }
        ensures sent { OnOk result (Adds (sent self.old) (sent self.new) (out.Close code)) }
        ensures unsent { OnErr result (sent self.new ≡ sent self.old) }
        ensures failed { IsErrOf result LinkRefusal.Failed → Rose (faults self.old) (faults self.new) }
        ensures later { faults self.old ≤ faults self.new };
}
