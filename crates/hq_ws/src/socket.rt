ghost use Rattle.std.specs.Prelude.{None, ◌≡◌};

use crate::handshake::Subprotocol;
use hq_base::Bytes;
use hq_io::count_fault;
use hq_messages::{In, LinkRefusal, Messages};
use std::alloc::Global;
use std::io::{ErrorKind, Read, Write};
use std::net::OpenStream;
use std::time::Duration;
use tungstenite::{
    CloseCode, CloseFrame, Error, HandshakeError, Message, NoMask, Utf8Bytes, WebSocket,
    WebSocketConfig, accept_hdr,
};

// What a peer is taken to say that says nothing for as long as a read waits.
const PING: &[u8] = br#"{"type":"ping"}"#;

// How long a read waits for the peer once it has sent a text, in seconds.
const PERIOD: u64 = 1;

// The most bytes of a message, and of a frame: a request of 1 MiB in which each byte is escaped, and what stands around it.
const MOST: usize = 8_388_608;

// How many messages are read behind a close that was sent, until the peer's own comes.
const LAST_MESSAGES: usize = 100;

// What became of the handshake.
#[derive(Drop)]
enum State<S> {
    Open(WebSocket<S, NoMask>),
    Failed,
    Memory,
}

/// Messages over a stream. After a handshake that failed every call is a counted failure, and after one that wanted memory
/// every call answers Memory. Once the peer has sent a text, one that says nothing for a second counts as one that sends
/// `{"type":"ping"}`.
#[derive(Drop)]
pub struct WsMessages<S> {
    state: State<S>,
    has_spoken: bool,
    faults: u64,
}

// The state behind a handshake.
fn shaken<S: Read + Write + Drop>(alloc: Global, stream: S) -> State<S> {
    match accept_hdr(alloc, stream, Subprotocol { alloc }) {
        Ok(mut socket) => {
            let config = WebSocketConfig::default()
                .max_message_size(Some(MOST))
                .max_frame_size(Some(MOST));
            socket.set_config(config);
            State::Open(socket)
        }
        // The callback refuses for want of memory alone.
        Err(HandshakeError::Failure(Error::OutOfMemory | Error::Refused(_))) => State::Memory,
        Err(_) => State::Failed,
    }
}

impl<S: Read + Write + OpenStream + Drop> WsMessages<S> {
    /// Shakes hands over a stream that a peer has opened. Until the peer's first text a read waits as long as the stream says.
    pub fn accept(alloc: Global, stream: S) -> Self
        ensures { ⟦<WsMessages<S> as Messages>⟧.faults result ≡ 0 }
    {
        WsMessages {
            state: shaken(alloc, stream),
            has_spoken: false,
            faults: 0,
        }
    }
}

// What a failed read says of a peer that has sent a text, or of one that has not.
fn behind(alloc: Global, error: Error, has_spoken: bool) -> Result<In, LinkRefusal> {
    match error {
        Error::ConnectionClosed | Error::AlreadyClosed => Ok(In::Ended),
        Error::OutOfMemory => Err(LinkRefusal::Memory),
        Error::Io(cause) => {
            if has_spoken && cause.kind() == ErrorKind::WouldBlock {
                Ok(In::Text(Bytes::from_slice(alloc, PING)?))
            } else {
                Err(LinkRefusal::Failed)
            }
        }
        _ => Err(LinkRefusal::Failed),
    }
}

// The next message of a socket.
fn next<S: Read + Write + Drop>(
    alloc: Global,
    socket: &mut WebSocket<S, NoMask>,
    has_spoken: bool,
) -> Result<In, LinkRefusal> {
    match socket.read() {
        Ok(Message::Text(text)) => Ok(In::Text(Bytes::from_slice(alloc, text.as_bytes())?)),
        Ok(Message::Binary(_)) => Ok(In::Other),
        Ok(Message::Ping(_) | Message::Pong(_)) => Ok(In::Idle),
        Ok(Message::Close(_)) => {
            // The answer to a close leaves at the next read, which does not wait.
            let _ = socket.read();
            Ok(In::Ended)
        }
        Err(error) => behind(alloc, error, has_spoken),
    }
}

// The next message of a socket. From the first text on a read waits for a period.
fn received<S: Read + Write + OpenStream + Drop>(
    alloc: Global,
    socket: &mut WebSocket<S, NoMask>,
    has_spoken: bool,
) -> Result<In, LinkRefusal> {
    let came = next(alloc, socket, has_spoken)?;
    if !has_spoken && matches!(came, In::Text(_)) {
        let period = Some(Duration::from_secs(PERIOD));
        if socket.get_ref().set_read_timeout(period).is_err() {
            return Err(LinkRefusal::Failed);
        }
    }
    Ok(came)
}

// Sends a text over a socket.
fn put<S: Read + Write + Drop>(
    alloc: Global,
    socket: &mut WebSocket<S, NoMask>,
    text: &[u8],
) -> Result<(), LinkRefusal> {
    let Ok(text) = str::from_utf8(text) else {
        return Err(LinkRefusal::Failed);
    };
    let Ok(message) = Message::text(alloc, text) else {
        return Err(LinkRefusal::Memory);
    };
    match socket.send(message) {
        Ok(()) => Ok(()),
        Err(Error::OutOfMemory) => Err(LinkRefusal::Memory),
        Err(_) => Err(LinkRefusal::Failed),
    }
}

// Sends a close, and reads until the peer has closed too: a socket that is dropped with bytes unread is reset, and the
// peer may lose the code.
fn shut<S: Read + Write + Drop>(
    socket: &mut WebSocket<S, NoMask>,
    code: u16,
) -> Result<(), LinkRefusal> {
    let frame = CloseFrame {
        code: CloseCode::from(code),
        reason: Utf8Bytes::from_static(""),
    };
    match socket.close(Some(frame)) {
        Ok(()) => {}
        Err(Error::OutOfMemory) => return Err(LinkRefusal::Memory),
        Err(_) => return Err(LinkRefusal::Failed),
    }
    for _ in 0..LAST_MESSAGES {
        if socket.read().is_err() {
            break;
        }
    }
    Ok(())
}

impl<S: Read + Write + OpenStream + Drop> Messages for WsMessages<S> {
    ghost left = { λ _. None };

    ghost sent = { λ _. None };

    ghost faults = { λ m. m.faults };

    fn faults(&self) -> u64 {
        self.faults
    }

    fn recv(&mut self, alloc: Global) -> Result<In, LinkRefusal> {
        let has_spoken = self.has_spoken;
        let came = match &mut self.state {
            State::Open(socket) => received(alloc, socket, has_spoken),
            State::Failed => Err(LinkRefusal::Failed),
            State::Memory => Err(LinkRefusal::Memory),
        };
        if matches!(came, Err(LinkRefusal::Failed)) {
            count_fault(&mut self.faults);
        }
        if matches!(came, Ok(In::Text(_))) {
            self.has_spoken = true;
        }
        came
    }

    fn send(&mut self, alloc: Global, text: &[u8]) -> Result<(), LinkRefusal> {
        let sent = match &mut self.state {
            State::Open(socket) => put(alloc, socket, text),
            State::Failed => Err(LinkRefusal::Failed),
            State::Memory => Err(LinkRefusal::Memory),
        };
        if matches!(sent, Err(LinkRefusal::Failed)) {
            count_fault(&mut self.faults);
        }
        sent
    }

    fn close(&mut self, _alloc: Global, code: u16) -> Result<(), LinkRefusal> {
        let closed = match &mut self.state {
            State::Open(socket) => shut(socket, code),
            State::Failed => Err(LinkRefusal::Failed),
            State::Memory => Err(LinkRefusal::Memory),
        };
        if matches!(closed, Err(LinkRefusal::Failed)) {
            count_fault(&mut self.faults);
        }
        closed
    }
}
