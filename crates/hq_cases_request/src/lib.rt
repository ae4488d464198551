//! Cases about whole requests: runs of the program's commands over directories, also those that serve and talk, statements of SQL, and
//! requests over tables that fail; and one statement that is not a case, over a directory of the system.
#![tactic(auto)]

mod directory;
mod input;
mod links;
mod loaded;
mod pins;
mod runs;
mod statements;
mod subject;
mod talks;

pub use input::answer_input;
pub use subject::About;
