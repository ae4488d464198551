ghost use Rattle.std.specs.Prelude.{◌≡◌, ◌≤◌, ◌↔◌, option_copied, find, ◌&&◌, bytes_eq, IfOk};
ghost use Rattle.hq_io_memory.specs.Calls.{calls_from, IsToFail};
ghost use Rattle.hq_live.specs.Asking.{GaveReply, Reloads};
ghost use Rattle.hq_live.specs.Memory.{due_over, next_over, HasFailed, HasNotTaken};

use crate::{Asked, Asker, Reloaded};
use hq_base::{Bytes, List, Memory, Txt};
use hq_io::NumList;
use hq_io_memory::Calls;
use hq_model::Session;
use std::alloc::Global;

/// A reply that is due to a role and a body.
#[derive(Drop)]
pub struct DueReply {
    pub role: Txt,
    pub body: Bytes,
    pub reply: Bytes,
}

/// A database, told as the replies that are due over it: of one role and body the first. To others no bytes are due.
pub type Replies = List<DueReply>;

/// An asker in memory, which fails at the calls whose numbers it was made with.
#[derive(Drop)]
pub struct MemAsker {
    /// The database that is present.
    pub present: Replies,
    /// The databases that the next reloads take.
    pub next: Vec<Replies>,
    pub calls: Calls,
}

impl MemAsker {
    /// An asker over this database, and then over those, with the numbers of the calls that are to fail.
    pub fn new(present: Replies, next: List<Replies>, failing: NumList) -> Self
        ensures present { result.present ≡ present }
        ensures next { result.next.items ≡ next }
        ensures calls { result.calls ≡ calls_from failing }
    {
        MemAsker {
            present,
            next: next.into_vec(),
            calls: Calls::new(failing),
        }
    }
}

// The line of this role and body.
fn line<'a>(lines: &'a [DueReply], role: &Txt, body: &[u8]) -> Option<&'a DueReply>
    ensures { option_copied result ≡ find (λ line. bytes_eq line.role role.now && bytes_eq line.body body.now) lines.now }
{
    lines
        .iter()
        .find(|line| line.role == *role && line.body.as_slice() == body)
}

// The reply that is due.
fn due_reply(
    alloc: Global,
    lines: &[DueReply],
    session: &Session,
    body: &[u8],
) -> Result<Bytes, Memory>
    ensures { IfOk result (λ reply. reply ≡ due_over lines.now session.now body.now) }
{
    match line(lines, &session.role, body) {
        Some(line) => Bytes::from_slice(alloc, line.reply.as_slice()),
        None => Ok(Bytes::new(alloc)),
    }
}

impl Asker for MemAsker {
    ghost due = { λ a. due_over a.present };

    ghost next = { λ a. next_over a.next.items };

    ghost faults = { λ a. a.calls.faults };

    ghost reads = { λ _ _ _. Unit {0} };

    /// Fails exactly where the call's number is one of those that are to fail.
    fn ask(&mut self, alloc: Global, session: &Session, body: &[u8]) -> Asked
        ensures asked { GaveReply (due_over self.old.present session.now body.now) self.old.calls.faults self.new.calls.faults result }
        ensures due { due_over self.new.present ≡ due_over self.old.present }
        ensures next { next_over self.new.next.items ≡ next_over self.old.next.items }
        ensures later { self.old.calls.faults ≤ self.new.calls.faults }
        ensures fails { HasFailed result ↔ IsToFail self.old.calls }
    {
        let before = self.calls.faults;
        if self.calls.next_fails() {
            self.calls.fault();
            return Asked::Failed {
                before,
                after: self.calls.faults,
            };
        }
        match due_reply(alloc, self.present.as_slice(), session, body) {
            Ok(reply) => Asked::Reply(reply),
            Err(Memory) => Asked::Memory,
        }
    }

    /// Fails exactly where the call's number is one of those that are to fail.
    fn reload(&mut self, _alloc: Global) -> Reloaded
        ensures reloaded { Reloads (due_over self.old.present) (due_over self.new.present)
            (next_over self.old.next.items) (next_over self.new.next.items) self.old.calls.faults self.new.calls.faults result }
        ensures later { self.old.calls.faults ≤ self.new.calls.faults }
        ensures fails { HasNotTaken result ↔ IsToFail self.old.calls }
    {
        let before = self.calls.faults;
        if self.calls.next_fails() {
            self.calls.fault();
            return Reloaded::Failed {
                before,
                after: self.calls.faults,
            };
        }
        if self.next.is_empty() {
            return Reloaded::Same;
        }
        self.present = self.next.remove(0);
        Reloaded::New
    }
}
