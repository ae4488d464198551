ghost use Rattle.std.specs.Prelude.{◌≡◌, ◌≤◌, ◌↔◌, ◌++◌, ◌∷◌, [], OnOk, OnErr, IsErrOf, option_copied, length};

use crate::Header;
use hq_base::{List, Memory, Txt};
use std::alloc::Global;
use std::marker::Model;
use thiserror::Error;

/// The most headers of a request.
pub const HEADERS_LIMIT: usize = 64;

/// The headers of a request in order, at most 64. Contracts see them as a list.
#[derive(Drop)]
pub struct Headers {
    items: List<Header>,
}

impl Model for Headers {
    ghost use Rattle.std.specs.Prelude.{◌≤◌, List as Items, length};
    ghost use Rattle.hq_session.specs.declared.header.Header.{Header};

    ghost Value = { Items Header };

    ghost view = { λ h. h.items };

    ghost invariant = { λ h. length h.items ≤ 64 };
}

/// Why a header was not added.
#[derive(Clone, Copy, Debug, Error)]
pub enum HeadersRefusal {
    #[error("too many headers")]
    TooMany,
    #[error("out of memory")]
    Memory,
}

impl From<Memory> for HeadersRefusal {
    ghost use Rattle.std.specs.Prelude.{◌≡◌};
    ghost use Rattle.hq_session.specs.declared.headers.HeadersRefusal.TheVariants as refusal;

    ghost from_gives = { λ _ e. e ≡ refusal.Memory };

    fn from(_: Memory) -> Self {
        HeadersRefusal::Memory
    }
}

impl Headers {
    ghost use Rattle.hq_session.specs.Sessions.{value_of};

    /// No headers. Takes no memory: later calls do.
    pub fn new(alloc: Global) -> Headers
        ensures { result ≡ [] }
    {
        Headers {
            items: List::new(alloc),
        }
    }

    /// The headers, in order.
    pub fn as_slice(&self) -> &[Header]
        ensures { result.now ≡ self.now }
    {
        self.items.as_slice()
    }

    /// Adds a header at the end. TooMany exactly where there are 64 already; a refusal leaves them as they were.
    pub fn push(&mut self, header: Header) -> Result<(), HeadersRefusal>
        ensures ok { OnOk result (self.new ≡ self.old ++ header ∷ []) }
        ensures few { OnOk result (length self.new ≤ 64) }
        ensures too_many { IsErrOf result HeadersRefusal.TooMany ↔ (length self.old ≡ 64) }
        ensures err { OnErr result (self.new ≡ self.old) }
    {
        if self.items.len() >= HEADERS_LIMIT {
            return Err(HeadersRefusal::TooMany);
        }
        self.items.push(header)?;
        Ok(())
    }

    /// The value of the first header of this name, which is in lower case.
    pub fn first(&self, name: &Txt) -> Option<&Txt>
        ensures { option_copied result ≡ value_of self.now name.now }
    {
        let header = self.as_slice().iter().find(|header| header.name == *name)?;
        Some(&header.value)
    }
}
