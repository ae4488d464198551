//! Live queries: subscriptions, each of which is sent every reply that differs from the one that it was sent before.
#![tactic(auto)]

mod answer;
mod asker;
mod body;
mod ending;
mod event;
mod keeping;
mod laws;
mod live;
mod mem_asker;
mod refusal;
mod run;
mod telling;

pub use asker::{Asked, Asker, Reloaded};
pub use body::Body;
pub use event::{Event, Sends, Sent, Subscription, What};
pub use laws::{others_change_nothing, what_he_cannot_tell_apart_changes_nothing};
pub use live::Live;
pub use mem_asker::{DueReply, MemAsker, Replies};
pub use refusal::StepRefusal;
