ghost use Rattle.std.specs.Prelude.{◌≡◌};

use hq_base::{Memory, Txt};
use hq_cli::WordsRefusal;
use hq_engine::EngineRefusal;
use hq_io::{InputRefusal, WriteFailed};
use hq_load::{Field, Fields, FileFault, LoadingRefusal, Phrase};
use hq_load_pages::PageRefusal;
use hq_serve::ServeRefusal;
use thiserror::Error;

/// Why the program ends with another status than 0.
#[derive(Debug, Drop, Error)]
pub enum Refusal {
    #[error("bad arguments")]
    BadWords,
    /// A file of the directory is absent, too large, or refused by its reader.
    #[error("{fault}")]
    File { file: Txt, fault: FileFault },
    #[error("read failed")]
    ReadFailed,
    #[error("write failed")]
    WriteFailed,
    /// The database failed. Its count of faults rose from `before` to `after`.
    #[error("database failed {before} {after}")]
    Database { before: u64, after: u64 },
    #[error("out of memory")]
    Memory,
    #[error("input too long")]
    InputTooLong,
    /// No part of a copy was written, for this cause.
    #[error("copy: {cause:?}")]
    NotCopied { cause: Txt },
}

impl Refusal {
    ghost use Rattle.hq_command.specs.Ending.{refusal_status};

    /// The status that the program ends with.
    pub fn status(&self) -> u8
        ensures { result ≡ refusal_status self.now }
    {
        match self {
            Refusal::BadWords => 2,
            Refusal::File { .. } => 3,
            Refusal::ReadFailed => 4,
            Refusal::WriteFailed => 5,
            Refusal::Database { .. } => 6,
            Refusal::Memory => 7,
            Refusal::InputTooLong => 8,
            Refusal::NotCopied { .. } => 1,
        }
    }
}

impl Refusal {
    ghost use Rattle.std.specs.Prelude.{option_copied};
    ghost use Rattle.hq_load.specs.Line.{field_texts};
    ghost use Rattle.hq_command.specs.Line.{refusal_fields, refusal_file, refusal_name};

    /// The file that it is of.
    pub fn file(&self) -> Option<&Txt>
        ensures { option_copied result ≡ refusal_file self.now }
    {
        match self {
            Refusal::File { file, .. } => Some(file),
            _ => None,
        }
    }

    /// Its name on a line.
    pub fn name(&self) -> Phrase
        ensures { result ≡ refusal_name self.now }
    {
        match self {
            Refusal::BadWords => Phrase::BadArguments,
            Refusal::File { fault, .. } => fault.name(),
            Refusal::ReadFailed => Phrase::ReadFailed,
            Refusal::WriteFailed => Phrase::WriteFailed,
            Refusal::Database { .. } => Phrase::DatabaseFailed,
            Refusal::Memory => Phrase::OutOfMemory,
            Refusal::InputTooLong => Phrase::InputTooLong,
            Refusal::NotCopied { .. } => Phrase::Copy,
        }
    }

    /// Its fields on a line.
    pub fn fields(&self) -> Fields<'_>
        ensures { field_texts result ≡ refusal_fields self.now }
    {
        match self {
            Refusal::File { fault, .. } => fault.fields(),
            Refusal::Database { before, after } => {
                Fields::Two(Field::Number(*before), Field::Number(*after))
            }
            Refusal::NotCopied { cause } => Fields::One(Field::Text(cause)),
            _ => Fields::Zero,
        }
    }
}

impl From<Memory> for Refusal {
    ghost use Rattle.hq_command.specs.declared.refusal.Refusal.TheVariants as ending;

    ghost from_gives = { λ _ e. e ≡ ending.Memory };

    fn from(_: Memory) -> Self {
        Refusal::Memory
    }
}

impl From<WriteFailed> for Refusal {
    ghost use Rattle.hq_command.specs.declared.refusal.Refusal.TheVariants as ending;

    ghost from_gives = { λ _ e. e ≡ ending.WriteFailed };

    fn from(_: WriteFailed) -> Self {
        Refusal::WriteFailed
    }
}

impl From<WordsRefusal> for Refusal {
    ghost use Rattle.hq_command.specs.Refusals.{of_words};

    ghost from_gives = { λ r e. e ≡ of_words r };

    fn from(refusal: WordsRefusal) -> Self {
        match refusal {
            WordsRefusal::BadWords => Refusal::BadWords,
            WordsRefusal::Memory => Refusal::Memory,
        }
    }
}

impl From<LoadingRefusal> for Refusal {
    ghost use Rattle.hq_command.specs.Refusals.{of_loading};

    ghost from_gives = { λ r e. e ≡ of_loading r };

    fn from(refusal: LoadingRefusal) -> Self {
        match refusal {
            LoadingRefusal::File { file, fault } => Refusal::File { file, fault },
            LoadingRefusal::Failed => Refusal::ReadFailed,
            LoadingRefusal::Memory => Refusal::Memory,
        }
    }
}

impl From<PageRefusal> for Refusal {
    ghost use Rattle.hq_command.specs.Refusals.{of_pages};

    ghost from_gives = { λ r e. e ≡ of_pages r };

    fn from(refusal: PageRefusal) -> Self {
        match refusal {
            PageRefusal::Failed => Refusal::ReadFailed,
            PageRefusal::Memory => Refusal::Memory,
        }
    }
}

impl From<InputRefusal> for Refusal {
    ghost use Rattle.hq_command.specs.Refusals.{of_input};

    ghost from_gives = { λ r e. e ≡ of_input r };

    fn from(refusal: InputRefusal) -> Self {
        match refusal {
            InputRefusal::Failed => Refusal::ReadFailed,
            InputRefusal::TooLong => Refusal::InputTooLong,
            InputRefusal::Memory => Refusal::Memory,
        }
    }
}

impl From<EngineRefusal> for Refusal {
    ghost use Rattle.hq_command.specs.Refusals.{of_engine};

    ghost from_gives = { λ r e. e ≡ of_engine r };

    fn from(refusal: EngineRefusal) -> Self {
        match refusal {
            EngineRefusal::Database { before, after } => Refusal::Database { before, after },
            EngineRefusal::Memory => Refusal::Memory,
        }
    }
}

impl From<ServeRefusal> for Refusal {
    ghost use Rattle.hq_command.specs.Refusals.{of_serving};

    ghost from_gives = { λ r e. e ≡ of_serving r };

    fn from(refusal: ServeRefusal) -> Self {
        match refusal {
            ServeRefusal::DoorFailed => Refusal::ReadFailed,
            ServeRefusal::WriteFailed => Refusal::WriteFailed,
            ServeRefusal::Memory => Refusal::Memory,
        }
    }
}
