//! The commands `query` and `sql`, which read a request; `check` and `gen`, which read none; the pages in which the program tells of
//! itself; and how each command ends.
#![tactic(auto)]

mod calling;
mod checking;
mod done;
mod generating;
mod instance;
mod refusal;
mod reply;
mod showing;
mod stating;
mod telling;

pub use calling::caller;
pub use checking::check;
pub use done::Done;
pub use generating::generate_and_answer;
pub use instance::{Instance, engine_over};
pub use refusal::Refusal;
pub use reply::{INPUT_LIMIT, query, reply_to};
pub use showing::show;
pub use stating::sql;
pub use telling::tell;
