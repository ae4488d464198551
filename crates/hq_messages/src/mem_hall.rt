ghost use Rattle.std.specs.Prelude.{◌≡◌, ◌↔◌, [], Some, None, OnOk, OnErr, IsErr, is_err, IfSome, option_copied, slice_get};
ghost use Rattle.hq_io.specs.Causes.{HasCause, one_more};
ghost use Rattle.hq_io_memory.specs.Calls.{calls_from, IsToFail, after};
ghost use Rattle.hq_io_memory.specs.LinkRow.{links_in, present_in, with_link_in};
ghost use Rattle.hq_messages.specs.Messages.{IsNextTalk};

use crate::{Hall, HallFailed, MemMessages};
use hq_base::List;
use hq_io::NumList;
use hq_io_memory::{Calls, LinkRow};
use std::alloc::Global;

/// Talks in memory, in order.
pub type MemTalks = List<MemMessages>;

/// A hall in memory. Where its talks are used up, it gives talks without messages.
#[derive(Drop)]
pub struct MemHall {
    row: LinkRow<MemMessages>,
    pub calls: Calls,
    alloc: Global,
}

// A talk without messages.
fn empty(alloc: Global) -> MemMessages
    ensures { result.left.items ≡ [] }
{
    MemMessages::new(alloc, List::new(alloc), List::new(alloc))
}

impl MemHall {
    /// A hall with these talks to come.
    pub fn new(alloc: Global, talks: MemTalks, failing: NumList) -> Self
        ensures talks { ⟦<MemHall as Hall>⟧.talks result ≡ Some talks }
        ensures accepted { ⟦<MemHall as Hall>⟧.accepted result ≡ 0 }
        ensures present { ⟦<MemHall as Hall>⟧.present result ≡ None }
        ensures calls { result.calls ≡ calls_from failing }
    {
        MemHall {
            row: LinkRow::new(talks.into_vec(), empty(alloc)),
            calls: Calls::new(failing),
            alloc,
        }
    }

    /// The talk at this place, counted from 0, as it is now.
    pub fn talk_at(&self, at: usize) -> Option<&MemMessages>
        ensures { IfSome (⟦<MemHall as Hall>⟧.talks self.now) (λ talks. option_copied result ≡ slice_get talks at) }
    {
        self.row.get(at)
    }
}

impl Hall for MemHall {
    type Talk = MemMessages;

    ghost talks = { λ h. Some (links_in h.row) };

    ghost accepted = { λ h. h.row.accepted };

    ghost present = { λ h. present_in h.row };

    ghost faults = { λ h. h.calls.faults };

    ghost with_talk = { λ h t. record h { row = with_link_in h.row t } };

    fn faults(&self) -> u64 {
        self.calls.faults
    }

    /// Fails exactly where the call's number is one of those that are to fail.
    fn listen(&mut self, _port: u16) -> Result<(), HallFailed>
        ensures row { self.new.row ≡ self.old.row }
        ensures cause { HasCause self.old.calls.faults self.new.calls.faults result }
        ensures fails { IsErr result ↔ IsToFail self.old.calls }
        ensures calls { self.new.calls ≡ after (is_err result) self.old.calls }
    {
        if self.calls.next_fails() {
            self.calls.fault();
            return Err(HallFailed);
        }
        Ok(())
    }

    /// Fails exactly where the call's number is one of those that are to fail.
    fn accept(&mut self) -> Result<(), HallFailed>
        ensures next { OnOk result (IsNextTalk (λ talk. Some talk.left.items) (Some (links_in self.old.row)) self.old.row.accepted (present_in self.new.row)) }
        ensures accepted { OnOk result (self.new.row.accepted ≡ one_more self.old.row.accepted) }
        ensures talks { links_in self.new.row ≡ links_in self.old.row }
        ensures failed { OnErr result (self.new.row ≡ self.old.row) }
        ensures cause { HasCause self.old.calls.faults self.new.calls.faults result }
        ensures fails { IsErr result ↔ IsToFail self.old.calls }
        ensures calls { self.new.calls ≡ after (is_err result) self.old.calls }
    {
        if self.calls.next_fails() {
            self.calls.fault();
            return Err(HallFailed);
        }
        self.row.advance(empty(self.alloc));
        Ok(())
    }

    fn present(&mut self) -> &mut MemMessages {
        self.row.link()
    }

    fn close(&mut self) {
        self.row.close();
    }

    ghost use Rattle.hq_io_memory.specs.Lending.{present_in-with_link_in, links_in-with_link_in};
    ghost use Rattle.std.specs.Prelude.{refl};
    ghost use Rattle.std.proofs.Common.{ap};

    ghost with_talk_present = { λ h t p. present_in-with_link_in h.row t p };

    ghost with_talk_talks = { λ h t p. ap Some (links_in-with_link_in h.row t p) };

    ghost with_talk_accepted = { λ h t. refl };

    ghost with_talk_faults = { λ h t. refl };
}
