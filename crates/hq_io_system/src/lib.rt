//! The streams, files and sockets of the system as objects of the outside. They tell nothing of content, and count each fault.
#![tactic(auto)]

mod disk;
mod files;
mod interrupted;
mod link;
mod silent;
mod streams;
mod tcp;

pub use disk::FileDisk;
pub use files::DirFiles;
pub use link::{TcpLink, set_limits};
pub use silent::SilentPeers;
pub use streams::{StdSink, StdSource};
pub use tcp::{TcpDoor, listener_at};
