ghost use Rattle.std.specs.Prelude.{◌≡◌, ◌≤◌, ◌++◌, ◌∷◌, ◌↔◌, [], true, false, IfOk, OnErr, IfErr, IsErrOf, IsTrue, count_by};
ghost use Rattle.std.specs.List.{list_any};
ghost use Rattle.hq_live.specs.Answers.{IsAnswer, kept, news};
ghost use Rattle.hq_live.specs.Steps.{Steps, LeavesAsker, IsRefusal, IsReloadRefusal, IsTooMany, is_of, is_by, is_repeated};
ghost use Rattle.hq_live.specs.Asking.{KeepsFiles, Moved};
ghost use Rattle.hq_live.specs.declared.event.Event.TheVariants as event;

use crate::answer::{Polled, ask, ask_all};
use crate::ending::{end, end_all};
use crate::keeping::{keep, keep_all};
use crate::telling::{add_news, news_of_all};
use crate::{Asker, Event, Reloaded, Sends, StepRefusal, Subscription};
use hq_base::{List, Memory, Txt};
use std::alloc::Global;

/// Subscriptions, and the asker that answers them.
#[derive(Drop)]
pub struct Live<A> {
    pub asker: A,
    /// In order of subscribing.
    pub subscriptions: Vec<Subscription>,
}

impl<A: Asker> Live<A> {
    /// No subscriptions. Takes no memory: later calls do.
    pub fn new(alloc: Global, asker: A) -> Self
        ensures asker { result.asker ≡ asker }
        ensures none { result.subscriptions.items ≡ [] }
    {
        Live {
            asker,
            subscriptions: Vec::new(alloc),
        }
    }

    /// The asker. All subscriptions are gone.
    pub fn into_asker(self) -> A
        ensures { result ≡ self.asker }
    {
        self.asker
    }

    // Whether a subscription of this subscriber and name is there.
    fn has(&self, who: u32, id: &Txt) -> bool
        ensures { result ≡ list_any (is_of who id.now) self.now.subscriptions.items }
    {
        self.subscriptions
            .iter()
            .any(|other| other.who == who && other.id == *id)
    }

    // Whether this subscriber has 100 subscriptions.
    fn is_full(&self, who: u32) -> bool
        ensures { IsTrue result ↔ (100 ≤ count_by (is_by who) self.now.subscriptions.items) }
    {
        self.subscriptions
            .iter()
            .filter(|other| other.who == who)
            .count()
            >= 100
    }

    // Begins a subscription that is not there.
    fn begin(&mut self, alloc: Global, mut begun: Subscription) -> Result<Sends, Memory>
        ensures ok { IfOk result (λ sends. (a : Polled) × IsAnswer (A.due self.old.asker) begun (A.faults self.old.asker) (A.faults self.new.asker) a
            × (self.new.subscriptions.items ≡ self.old.subscriptions.items ++ kept begun a ∷ []) × (sends ≡ news begun a)) }
        ensures err { OnErr result (self.new.subscriptions.items ≡ self.old.subscriptions.items) }
        ensures due { A.due self.new.asker ≡ A.due self.old.asker }
        ensures next { A.next self.new.asker ≡ A.next self.old.asker }
        ensures files { KeepsFiles A.reads self.old.asker self.new.asker }
        ensures later { A.faults self.old.asker ≤ A.faults self.new.asker }
    {
        let answer = ask(alloc, &mut self.asker, &begun)?;
        let mut sends = List::new(alloc);
        add_news(alloc, &mut sends, &begun, &answer)?;
        keep(&mut begun, answer);
        self.subscriptions.push(begun)?;
        Ok(sends)
    }

    // Asks for all subscriptions.
    fn tick(&mut self, alloc: Global) -> Result<Sends, Memory>
        ensures ok { IfOk result (Steps (A.due self.old.asker) (A.faults self.old.asker) (A.faults self.new.asker) event.Tick self.old.subscriptions.items self.new.subscriptions.items) }
        ensures err { OnErr result (self.new.subscriptions.items ≡ self.old.subscriptions.items) }
        ensures due { A.due self.new.asker ≡ A.due self.old.asker }
        ensures next { A.next self.new.asker ≡ A.next self.old.asker }
        ensures files { KeepsFiles A.reads self.old.asker self.new.asker }
        ensures later { A.faults self.old.asker ≤ A.faults self.new.asker }
    {
        let answers = ask_all(alloc, &mut self.asker, &self.subscriptions)?;
        let sends = news_of_all(alloc, &self.subscriptions, &answers)?;
        keep_all(&mut self.subscriptions, answers);
        Ok(sends)
    }

    // Takes the next database.
    fn reload(&mut self, alloc: Global) -> Result<Sends, StepRefusal>
        ensures ok { IfOk result (λ sends. (sends ≡ []) × Moved (A.due self.old.asker) (A.due self.new.asker) (A.next self.old.asker) (A.next self.new.asker)) }
        ensures failed { IfErr result (IsReloadRefusal (A.faults self.old.asker) (A.faults self.new.asker)) }
        ensures kept { OnErr result ((A.due self.new.asker ≡ A.due self.old.asker) × (A.next self.new.asker ≡ A.next self.old.asker)) }
        ensures subscriptions { self.new.subscriptions.items ≡ self.old.subscriptions.items }
        ensures files { KeepsFiles A.reads self.old.asker self.new.asker }
        ensures later { A.faults self.old.asker ≤ A.faults self.new.asker }
    {
        match self.asker.reload(alloc) {
            Reloaded::New | Reloaded::Same => Ok(List::new(alloc)),
            Reloaded::Failed { before, after } => Err(StepRefusal::ReloadFailed { before, after }),
            Reloaded::Memory => Err(StepRefusal::Memory),
        }
    }

    /// Takes an event, and answers what is sent for it. Complete and Gone take no memory and are never refused.
    pub fn step(&mut self, alloc: Global, event: Event) -> Result<Sends, StepRefusal>
        ensures ok { IfOk result (Steps (A.due self.old.asker) (A.faults self.old.asker) (A.faults self.new.asker) event self.old.subscriptions.items self.new.subscriptions.items) }
        ensures repeated { IsErrOf result StepRefusal.Repeated ↔ (is_repeated event self.old.subscriptions.items ≡ true) }
        ensures too_many { IsErrOf result StepRefusal.TooMany ↔ ((is_repeated event self.old.subscriptions.items ≡ false) × IsTooMany event self.old.subscriptions.items) }
        ensures failed { IfErr result (IsRefusal event (A.faults self.old.asker) (A.faults self.new.asker)) }
        ensures err { OnErr result (self.new.subscriptions.items ≡ self.old.subscriptions.items) }
        ensures asker { LeavesAsker event (A.due self.old.asker) (A.due self.new.asker) (A.next self.old.asker) (A.next self.new.asker) result }
        ensures files { KeepsFiles A.reads self.old.asker self.new.asker }
        ensures later { A.faults self.old.asker ≤ A.faults self.new.asker }
    {
        match event {
            Event::Subscribe {
                who,
                id,
                session,
                body,
            } => {
                if self.has(who, &id) {
                    return Err(StepRefusal::Repeated);
                }
                if self.is_full(who) {
                    return Err(StepRefusal::TooMany);
                }
                let begun = Subscription {
                    who,
                    id,
                    session,
                    body,
                    last: None,
                };
                Ok(self.begin(alloc, begun)?)
            }
            Event::Tick => Ok(self.tick(alloc)?),
            Event::Reload => self.reload(alloc),
            Event::Complete { who, id } => {
                end(&mut self.subscriptions, who, &id);
                Ok(List::new(alloc))
            }
            Event::Gone { who } => {
                end_all(&mut self.subscriptions, who);
                Ok(List::new(alloc))
            }
        }
    }
}
