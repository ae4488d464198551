//! Messages of a WebSocket (RFC 6455), and places where peers connect by one: what is told of them, and messages in memory, which
//! tell all and fail at the calls whose numbers they were made with.
#![tactic(auto)]

mod halls;
mod mem_hall;
mod mem_messages;
mod messages;
mod refusal;

pub use halls::{Hall, HallFailed};
pub use mem_hall::{MemHall, MemTalks};
pub use mem_messages::{MemMessages, MessageList, OutList};
pub use messages::{In, Message, Messages, Out};
pub use refusal::LinkRefusal;
