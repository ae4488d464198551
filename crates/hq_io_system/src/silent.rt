use libc::net::{POLLIN, poll};
use libc::types::pollfd;
use std::alloc::Global;
use std::io;
use std::io::ErrorKind;
use std::net::{Net, OpenListener};
use std::os::fd::AsRawFd;
use std::time::{Clock, Duration, Instant};

// How many peers may wait that have sent nothing.
const MOST: usize = 64;

// How long one of them may wait, in seconds.
const PATIENCE: u64 = 60;

// A peer that has sent nothing when it was last looked at.
#[derive(Drop)]
struct Peer<S> {
    stream: S,
    since: Instant,
}

/// The peers of a door that have sent nothing yet, in the order in which they came.
#[derive(Drop)]
pub struct SilentPeers<S> {
    peers: Vec<Peer<S>>,
}

// What is asked of one descriptor: whether there is something to read. A negative one is passed over.
fn question(fd: i32) -> pollfd {
    pollfd {
        fd,
        events: POLLIN,
        revents: 0,
    }
}

// Asks the system, and waits so many milliseconds, or without end where they are negative. A signal ends the wait.
fn ask(questions: &mut [pollfd], millis: i32) -> io::Result<()> {
    if poll(questions, millis) >= 0 {
        return Ok(());
    }
    let error = io::Error::from_raw_os_error(os::errno());
    match error.kind() {
        ErrorKind::Interrupted => Ok(()),
        _ => Err(error),
    }
}

// The next peer of a listener that does not block, where there is one.
fn connected<L: OpenListener>(listener: &L) -> io::Result<Option<L::Stream>> {
    match listener.accept() {
        Ok((stream, _)) => Ok(Some(stream)),
        Err(e) => match e.kind() {
            ErrorKind::WouldBlock | ErrorKind::ConnectionAborted => Ok(None),
            _ => Err(e),
        },
    }
}

impl<S: AsRawFd + Drop> SilentPeers<S> {
    /// No peer.
    pub fn new(alloc: Global) -> Self {
        SilentPeers {
            peers: Vec::new(alloc),
        }
    }

    // How many milliseconds are left to the peer that came first. Negative where there is none.
    fn time_left<R: Clock>(&self, rt: &R) -> io::Result<i32> {
        let Some(first) = self.peers.first() else {
            return Ok(-1);
        };
        let left = Duration::from_secs(PATIENCE).saturating_sub(first.since.elapsed(rt)?);
        Ok(
            i32::try_from(left.as_millis())
                .unwrap_or(i32::MAX)
                .saturating_add(1),
        )
    }

    // Waits for the first peer that has sent something or whose input is over, and gives its place. Where a further peer
    // connects first, it is a place behind all of them; where time is up first, it is none.
    fn wait<L: AsRawFd>(&self, listener: &L, millis: i32) -> io::Result<Option<usize>> {
        let mut questions = [question(-1); MOST + 1];
        for (question, peer) in questions.iter_mut().zip(&self.peers) {
            question.fd = peer.stream.as_raw_fd();
        }
        questions[MOST].fd = listener.as_raw_fd();
        ask(&mut questions, millis)?;
        Ok(questions.iter().position(|question| question.revents != 0))
    }

    // Adds a peer, in place of the one that came first where there are too many. It comes back where memory is wanting.
    fn add(&mut self, stream: S, since: Instant) -> Option<S> {
        if self.peers.len() >= MOST {
            self.peers.remove(0);
        }
        match self.peers.push(Peer { stream, since }) {
            Ok(()) => None,
            Err(failed) => Some(failed.value.stream),
        }
    }

    // Drops the peers that have waited too long.
    fn drop_late<R: Clock>(&mut self, rt: &R) -> io::Result<()> {
        let now = Instant::now(rt)?;
        self.peers.retain(|peer| now.duration_since(peer.since) < Duration::from_secs(PATIENCE));
        Ok(())
    }

    // Adds the peer that has connected, if it is still there. It comes back where memory is wanting.
    fn take_in<R: Net<Stream = S> + Clock>(
        &mut self,
        rt: &R,
        listener: &R::Listener,
    ) -> io::Result<Option<S>> {
        match connected(listener)? {
            Some(stream) => Ok(self.add(stream, Instant::now(rt)?)),
            None => Ok(None),
        }
    }

    // Waits for what happens next: the peer that has sent something, or one more that waits, or some less.
    fn step<R: Net<Stream = S> + Clock>(
        &mut self,
        rt: &R,
        listener: &R::Listener,
    ) -> io::Result<Option<S>> {
        match self.wait(listener, self.time_left(rt)?)? {
            Some(at) if at < self.peers.len() => Ok(Some(self.peers.remove(at).stream)),
            Some(_) => {
                self.drop_late(rt)?;
                self.take_in(rt, listener)
            }
            None => {
                self.drop_late(rt)?;
                Ok(None)
            }
        }
    }

    /// The next peer of a listener that does not block: the first that has sent something, or whose input is over.
    pub fn next<R: Net<Stream = S> + Clock>(
        &mut self,
        rt: &R,
        listener: &R::Listener,
    ) -> io::Result<S> {
        for _ in 0..u64::MAX {
            if let Some(stream) = self.step(rt, listener)? {
                return Ok(stream);
            }
        }
        Err(io::Error::from(ErrorKind::TimedOut))
    }
}
