ghost use Rattle.std.specs.Prelude.{◌≡◌, None, Some};

use crate::link::TcpLink;
use crate::silent::SilentPeers;
use hq_io::{Door, DoorFailed, count_fault};
use std::alloc::Global;
use std::io;
use std::io::ErrorKind;
use std::net::{Net, OpenListener, TcpListener};
use std::time::Clock;

/// A port of this machine, at 127.0.0.1 alone. A peer becomes the present link once it has sent something; those that
/// send nothing wait beside it, at most 64 of them and for at most 60 seconds. A read or a write of a connection waits
/// for its peer for 60 seconds, and the first read behind a write for 5.
#[derive(Drop)]
pub struct TcpDoor<R: Net + Clock> {
    rt: R,
    listener: Option<R::Listener>,
    silent: SilentPeers<R::Stream>,
    present: Option<TcpLink<R::Stream>>,
    accepted: u64,
    faults: u64,
}

/// A listener at this port of 127.0.0.1, whose calls do not block.
pub fn listener_at<R: Net>(rt: &R, port: u16) -> io::Result<R::Listener> {
    let listener = TcpListener::bind(rt, ("127.0.0.1", port))?;
    listener.set_nonblocking(true)?;
    Ok(listener)
}

impl<R: Net + Clock> TcpDoor<R> {
    /// A door that does not listen yet.
    pub fn new(alloc: Global, rt: R) -> Self
        ensures accepted { ⟦<TcpDoor<R> as Door>⟧.accepted result ≡ 0 }
        ensures present { ⟦<TcpDoor<R> as Door>⟧.present result ≡ None }
        ensures faults { ⟦<TcpDoor<R> as Door>⟧.faults result ≡ 0 }
    {
        TcpDoor {
            rt,
            listener: None,
            silent: SilentPeers::new(alloc),
            present: None,
            accepted: 0,
            faults: 0,
        }
    }

    /// The port that it listens at. Where it was told to listen at port 0, the system has chosen one.
    pub fn port(&self) -> Option<u16> {
        Some(self.listener.as_ref()?.local_addr().ok()?.port())
    }

    // The next peer that has sent something.
    fn next_link(&mut self) -> io::Result<TcpLink<R::Stream>>
        ensures accepted { self.new.accepted ≡ self.old.accepted }
        ensures present { self.new.present ≡ self.old.present }
        ensures faults { self.new.faults ≡ self.old.faults }
    {
        match &self.listener {
            Some(listener) => TcpLink::new(self.silent.next(&self.rt, listener)?),
            None => Err(io::Error::from(ErrorKind::NotConnected)),
        }
    }
}

impl<R: Net + Clock> Door for TcpDoor<R> {
    type Link = TcpLink<R::Stream>;

    ghost links = { λ _. None };

    ghost accepted = { λ d. d.accepted };

    ghost present = { λ d. d.present };

    ghost faults = { λ d. d.faults };

    ghost with_link = { λ d l. record d { present = Some l } };

    fn faults(&self) -> u64 {
        self.faults
    }

    fn listen(&mut self, port: u16) -> Result<(), DoorFailed> {
        match listener_at(&self.rt, port) {
            Ok(listener) => {
                self.listener = Some(listener);
                Ok(())
            }
            Err(_) => {
                count_fault(&mut self.faults);
                Err(DoorFailed)
            }
        }
    }

    fn accept(&mut self) -> Result<(), DoorFailed> {
        match self.next_link() {
            Ok(link) => {
                self.present = Some(link);
                self.accepted = self.accepted.saturating_add(1);
                Ok(())
            }
            Err(_) => {
                count_fault(&mut self.faults);
                Err(DoorFailed)
            }
        }
    }

    fn link(&mut self) -> &mut TcpLink<R::Stream> {
        match &mut self.present {
            Some(link) => link,
            None => unreachable!(),
        }
    }

    fn close(&mut self, unread: bool) {
        if let Some(link) = self.present.take() {
            link.close(&self.rt, unread);
        }
    }

    ghost use Rattle.std.specs.Prelude.{refl};

    ghost with_link_present = { λ d l p. refl };

    ghost with_link_links = { λ d l p. refl };

    ghost with_link_accepted = { λ d l. refl };

    ghost with_link_faults = { λ d l. refl };
}
