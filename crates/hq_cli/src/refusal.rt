use hq_base::Memory;
use hq_session::HeadersRefusal;
use thiserror::Error;

/// Why words ask nothing.
#[derive(Clone, Copy, Debug, Error)]
pub enum WordsRefusal {
    #[error("bad arguments")]
    BadWords,
    #[error("out of memory")]
    Memory,
}

impl From<Memory> for WordsRefusal {
    ghost use Rattle.std.specs.Prelude.{◌≡◌};
    ghost use Rattle.hq_cli.specs.declared.refusal.WordsRefusal.TheVariants as refusal;

    ghost from_gives = { λ _ e. e ≡ refusal.Memory };

    fn from(_: Memory) -> Self {
        WordsRefusal::Memory
    }
}

impl From<HeadersRefusal> for WordsRefusal {
    ghost use Rattle.std.specs.Prelude.{◌≡◌};
    ghost use Rattle.hq_cli.specs.Parsing.{of_headers};

    ghost from_gives = { λ r e. e ≡ of_headers r };

    fn from(refusal: HeadersRefusal) -> Self {
        match refusal {
            HeadersRefusal::TooMany => WordsRefusal::BadWords,
            HeadersRefusal::Memory => WordsRefusal::Memory,
        }
    }
}
