ghost use Rattle.std.specs.Prelude.{◌≡◌, ◌++◌, IfOk, IfErr, OnOk};
ghost use Rattle.hq_live.specs.Runs.{Runs, RunsInPart, AreReplies, IsLiveRun, standing};

use crate::{Asker, Event, Live, Sends, Sent, StepRefusal};
use hq_base::{List, Memory};
use std::alloc::Global;

// Puts what is sent behind what was sent before.
fn append(sends: &mut Vec<Sent>, more: Sends) -> Result<(), Memory>
    ensures { OnOk result (sends.new.items ≡ sends.old.items ++ more) }
{
    let mut more = more.into_vec();
    sends.append(&mut more)?;
    Ok(())
}

impl<A: Asker> Live<A> {
    /// Takes events in order, and answers all that is sent for them. It ends at the first refusal: the events before it were taken,
    /// and what was sent for them is lost.
    pub fn run(&mut self, alloc: Global, events: List<Event>) -> Result<Sends, StepRefusal>
        ensures ok { IfOk result (Runs events
            (standing (A.due self.old.asker) (A.next self.old.asker) (A.faults self.old.asker) self.old.subscriptions.items)
            (standing (A.due self.new.asker) (A.next self.new.asker) (A.faults self.new.asker) self.new.subscriptions.items)) }
        ensures plain { IfOk result (λ sends. AreReplies sends → IsLiveRun events
            (standing (A.due self.old.asker) (A.next self.old.asker) (A.faults self.old.asker) self.old.subscriptions.items) sends) }
        ensures refused { IfErr result (RunsInPart events
            (standing (A.due self.old.asker) (A.next self.old.asker) (A.faults self.old.asker) self.old.subscriptions.items)
            (standing (A.due self.new.asker) (A.next self.new.asker) (A.faults self.new.asker) self.new.subscriptions.items)) }
    {
        let mut sends = Vec::new(alloc);
        'running: for event in events.into_vec() {
            let more = self.step(alloc, event)?;
            append(&mut sends, more)?;
        }
        Ok(List::from_vec(sends))
    }
}
