//! Events of one subscriber, as steps of the live queries.
ghost use Rattle.std.specs.Prelude.{◌≡◌, ◌≤◌, true, false, IfOk, IfErr, OnErr, IsErrOf};
ghost use Rattle.hq_live.specs.Asking.{KeepsFiles};
ghost use Rattle.hq_live.specs.Steps.{IsRefusal, IsTooMany, is_repeated};
ghost use Rattle.hq_live.specs.Runs.{Passes, Stays, standing};
ghost use Rattle.hq_live_talk.specs.Talks.{IsOwn, IsOwnEvent};

use hq_live::{Asker, Event, Live, Sends, StepRefusal};
use std::alloc::Global;

/// Takes an event of this subscriber, or of nobody.
pub fn step<A: Asker>(
    alloc: Global,
    live: &mut Live<A>,
    who: u32,
    event: Event,
) -> Result<Sends, StepRefusal>
    requires { IsOwnEvent who event }
    ensures ok { IfOk result (Passes event
        (standing (A.due live.old.asker) (A.next live.old.asker) (A.faults live.old.asker) live.old.subscriptions.items)
        (standing (A.due live.new.asker) (A.next live.new.asker) (A.faults live.new.asker) live.new.subscriptions.items)) }
    ensures repeated { IsErrOf result StepRefusal.Repeated → is_repeated event live.old.subscriptions.items ≡ true }
    ensures too_many { IsErrOf result StepRefusal.TooMany → (is_repeated event live.old.subscriptions.items ≡ false) × IsTooMany event live.old.subscriptions.items }
    ensures failed { IfErr result (IsRefusal event (A.faults live.old.asker) (A.faults live.new.asker)) }
    ensures stays { OnErr result (Stays
        (standing (A.due live.old.asker) (A.next live.old.asker) (A.faults live.old.asker) live.old.subscriptions.items)
        (standing (A.due live.new.asker) (A.next live.new.asker) (A.faults live.new.asker) live.new.subscriptions.items)) }
    ensures files { KeepsFiles A.reads live.old.asker live.new.asker }
    ensures later { A.faults live.old.asker ≤ A.faults live.new.asker }
    ensures own { IsOwn who live.old.subscriptions.items → IsOwn who live.new.subscriptions.items }
{
    live.step(alloc, event)
}
