//! Messages of a WebSocket (RFC 6455) over a stream, and the port where peers connect by one. They tell nothing of content, and
//! count each fault.
#![tactic(auto)]

mod handshake;
mod socket;
mod tcp;

pub use socket::WsMessages;
pub use tcp::TcpHall;
