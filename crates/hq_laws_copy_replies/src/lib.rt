//! The laws of a redacted copy's replies: its reader is answered as the session is.
#![tactic(auto)]

mod reply_laws;
mod request_laws;

pub use reply_laws::copies_answer_each_body;
pub use request_laws::copied_requests_are_renumbered;
