ghost use Rattle.std.specs.Prelude.{◌≡◌, None, Some};

use crate::WsMessages;
use hq_io::count_fault;
use hq_io_system::{SilentPeers, listener_at, set_limits};
use hq_messages::{Hall, HallFailed};
use std::alloc::Global;
use std::io;
use std::io::ErrorKind;
use std::net::Net;
use std::time::Clock;

/// A port of this machine, at 127.0.0.1 alone, at which peers connect by a WebSocket. A peer shakes hands once it has sent
/// something; those that send nothing wait beside it, at most 64 of them and for at most 60 seconds. A read waits for 60
/// seconds until the peer's first text, and for a second from then on; a write waits for 60 seconds.
#[derive(Drop)]
pub struct TcpHall<R: Net + Clock> {
    rt: R,
    alloc: Global,
    listener: Option<R::Listener>,
    silent: SilentPeers<R::Stream>,
    present: Option<WsMessages<R::Stream>>,
    accepted: u64,
    faults: u64,
}

impl<R: Net + Clock> TcpHall<R> {
    /// A hall that does not listen yet.
    pub fn new(alloc: Global, rt: R) -> Self
        ensures accepted { ⟦<TcpHall<R> as Hall>⟧.accepted result ≡ 0 }
        ensures present { ⟦<TcpHall<R> as Hall>⟧.present result ≡ None }
        ensures faults { ⟦<TcpHall<R> as Hall>⟧.faults result ≡ 0 }
    {
        TcpHall {
            rt,
            alloc,
            listener: None,
            silent: SilentPeers::new(alloc),
            present: None,
            accepted: 0,
            faults: 0,
        }
    }

    // Shakes hands with the next peer that has sent something.
    fn next_talk(&mut self) -> io::Result<WsMessages<R::Stream>>
        ensures accepted { self.new.accepted ≡ self.old.accepted }
        ensures present { self.new.present ≡ self.old.present }
        ensures faults { self.new.faults ≡ self.old.faults }
    {
        let Some(listener) = &self.listener else {
            return Err(io::Error::from(ErrorKind::NotConnected));
        };
        let stream = self.silent.next(&self.rt, listener)?;
        set_limits(&stream)?;
        Ok(WsMessages::accept(self.alloc, stream))
    }
}

impl<R: Net + Clock> Hall for TcpHall<R> {
    type Talk = WsMessages<R::Stream>;

    ghost talks = { λ _. None };

    ghost accepted = { λ h. h.accepted };

    ghost present = { λ h. h.present };

    ghost faults = { λ h. h.faults };

    ghost with_talk = { λ h t. record h { present = Some t } };

    fn faults(&self) -> u64 {
        self.faults
    }

    fn listen(&mut self, port: u16) -> Result<(), HallFailed> {
        match listener_at(&self.rt, port) {
            Ok(listener) => {
                self.listener = Some(listener);
                Ok(())
            }
            Err(_) => {
                count_fault(&mut self.faults);
                Err(HallFailed)
            }
        }
    }

    fn accept(&mut self) -> Result<(), HallFailed> {
        match self.next_talk() {
            Ok(talk) => {
                self.present = Some(talk);
                self.accepted = self.accepted.saturating_add(1);
                Ok(())
            }
            Err(_) => {
                count_fault(&mut self.faults);
                Err(HallFailed)
            }
        }
    }

    fn present(&mut self) -> &mut WsMessages<R::Stream> {
        match &mut self.present {
            Some(talk) => talk,
            None => unreachable!(),
        }
    }

    fn close(&mut self) {
        self.present = None;
    }

    ghost use Rattle.std.specs.Prelude.{refl};

    ghost with_talk_present = { λ h t p. refl };

    ghost with_talk_talks = { λ h t p. refl };

    ghost with_talk_accepted = { λ h t. refl };

    ghost with_talk_faults = { λ h t. refl };
}
