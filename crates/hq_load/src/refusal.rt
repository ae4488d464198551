ghost use Rattle.std.specs.Prelude.{◌≡◌};
ghost use Rattle.hq_load.specs.declared.refusal.LoadingRefusal.TheVariants as refusal;

use crate::FileFault;
use hq_base::{Memory, Txt};
use thiserror::Error;

/// Why a directory was not loaded.
#[derive(Debug, Drop, Error)]
pub enum LoadingRefusal {
    /// A file is absent, too large, or refused by its reader.
    #[error("{fault}")]
    File { file: Txt, fault: FileFault },
    /// A load failed, and the count of faults rose.
    #[error("load failed")]
    Failed,
    #[error("out of memory")]
    Memory,
}

impl From<Memory> for LoadingRefusal {
    ghost from_gives = { λ _ e. e ≡ refusal.Memory };

    fn from(_: Memory) -> Self {
        LoadingRefusal::Memory
    }
}
