ghost use Rattle.std.specs.Prelude.{◌≡◌, ◌≤◌, ◌↔◌, ◌++◌, ◌∷◌, [], IsErrOf, OnOk, OnErr, Some};
ghost use Rattle.hq_io.specs.Causes.{Rose};
ghost use Rattle.hq_io_memory.specs.Calls.{calls_from, IsToFail};
ghost use Rattle.hq_messages.specs.Messages.{Receives, Adds};
ghost use Rattle.hq_messages.specs.declared.messages.Out.TheVariants as out;

use crate::{In, LinkRefusal, Message, Messages, Out};
use hq_base::{Bytes, List};
use hq_io::NumList;
use hq_io_memory::Calls;
use std::alloc::Global;

/// Messages, in order.
pub type MessageList = List<Message>;

/// What was sent, in order.
pub type OutList = Vec<Out>;

/// Messages in memory. It fails at the calls whose numbers it was made with.
#[derive(Drop)]
pub struct MemMessages {
    pub left: Vec<Message>,
    pub sent: OutList,
    pub calls: Calls,
}

impl MemMessages {
    /// These messages to come, with the numbers of the calls that are to fail. Takes no memory: later calls do.
    pub fn new(alloc: Global, messages: MessageList, failing: NumList) -> Self
        ensures left { result.left.items ≡ messages }
        ensures sent { result.sent.items ≡ [] }
        ensures calls { result.calls ≡ calls_from failing }
    {
        MemMessages {
            left: messages.into_vec(),
            sent: Vec::new(alloc),
            calls: Calls::new(failing),
        }
    }

    // Fails where the call's number is one of those that are to fail.
    fn check(&mut self) -> Result<(), LinkRefusal>
        ensures left { self.new.left ≡ self.old.left }
        ensures sent { self.new.sent ≡ self.old.sent }
        ensures fails { IsErrOf result LinkRefusal.Failed ↔ IsToFail self.old.calls }
        ensures rose { IsErrOf result LinkRefusal.Failed → Rose self.old.calls.faults self.new.calls.faults }
        ensures later { self.old.calls.faults ≤ self.new.calls.faults }
    {
        if self.calls.next_fails() {
            self.calls.fault();
            return Err(LinkRefusal::Failed);
        }
        Ok(())
    }

    // Adds what goes out, where the call does not fail.
    fn add(&mut self, out: Out) -> Result<(), LinkRefusal>
        ensures left { self.new.left ≡ self.old.left }
        ensures sent { OnOk result (self.new.sent.items ≡ self.old.sent.items ++ out ∷ []) }
        ensures unsent { OnErr result (self.new.sent.items ≡ self.old.sent.items) }
        ensures fails { IsErrOf result LinkRefusal.Failed ↔ IsToFail self.old.calls }
        ensures rose { IsErrOf result LinkRefusal.Failed → Rose self.old.calls.faults self.new.calls.faults }
        ensures later { self.old.calls.faults ≤ self.new.calls.faults }
    {
        self.check()?;
        if self.sent.push(out).is_err() {
            return Err(LinkRefusal::Memory);
        }
        Ok(())
    }
}

impl Messages for MemMessages {
    ghost left = { λ m. Some m.left.items };

    ghost sent = { λ m. Some m.sent.items };

    ghost faults = { λ m. m.calls.faults };

    fn faults(&self) -> u64 {
        self.calls.faults
    }

    /// Fails exactly where the call's number is one of those that are to fail.
    fn recv(&mut self, _alloc: Global) -> Result<In, LinkRefusal>
        ensures left { Receives (Some self.old.left.items) (Some self.new.left.items) result }
        ensures sent { self.new.sent.items ≡ self.old.sent.items }
        ensures fails { IsErrOf result LinkRefusal.Failed ↔ IsToFail self.old.calls }
        ensures rose { IsErrOf result LinkRefusal.Failed → Rose self.old.calls.faults self.new.calls.faults }
        ensures later { self.old.calls.faults ≤ self.new.calls.faults }
    {
        self.check()?;
        if self.left.is_empty() {
            return Ok(In::Ended);
        }
        Ok(In::from(self.left.remove(0)))
    }

    /// Fails exactly where the call's number is one of those that are to fail.
    fn send(&mut self, alloc: Global, text: &[u8]) -> Result<(), LinkRefusal>
        ensures left { self.new.left ≡ self.old.left }
        ensures sent { OnOk result (Adds (Some self.old.sent.items) (Some self.new.sent.items) (out.Text text.now)) }
        ensures unsent { OnErr result (self.new.sent.items ≡ self.old.sent.items) }
        ensures rose { IsErrOf result LinkRefusal.Failed → Rose self.old.calls.faults self.new.calls.faults }
        ensures later { self.old.calls.faults ≤ self.new.calls.faults }
    {
        let text = Bytes::from_slice(alloc, text)?;
        self.add(Out::Text(text))
    }

    /// Fails exactly where the call's number is one of those that are to fail.
    fn close(&mut self, _alloc: Global, code: u16) -> Result<(), LinkRefusal>
        ensures left { self.new.left ≡ self.old.left }
        ensures sent { OnOk result (Adds (Some self.old.sent.items) (Some self.new.sent.items) (out.Close code)) }
        ensures unsent { OnErr result (self.new.sent.items ≡ self.old.sent.items) }
        ensures fails { IsErrOf result LinkRefusal.Failed ↔ IsToFail self.old.calls }
        ensures rose { IsErrOf result LinkRefusal.Failed → Rose self.old.calls.faults self.new.calls.faults }
        ensures later { self.old.calls.faults ≤ self.new.calls.faults }
    {
        self.add(Out::Close { code })
    }
}
