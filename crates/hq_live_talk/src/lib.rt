//! The talk of live queries: the messages of a peer that speaks the protocol `graphql-transport-ws` (GraphQL over WebSocket), and
//! what follows each.
#![tactic(auto)]

mod answered;
mod answering;
mod copying;
mod end;
mod init_headers;
mod said;
mod stepping;
mod talking;
mod texts;
mod told;

pub use end::TalkEnd;
pub use said::{Said, read_message};
pub use talking::talk;
