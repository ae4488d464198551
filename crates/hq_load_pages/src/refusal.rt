ghost use Rattle.std.specs.Prelude.{◌≡◌};
ghost use Rattle.hq_load_pages.specs.declared.refusal.PageRefusal.TheVariants as refusal;

use hq_base::Memory;
use hq_io::DiskFailed;
use std::alloc::AllocFailed;
use thiserror::Error;

/// Why rows are not on a disk.
#[derive(Clone, Copy, Debug, PartialEq, Eq, Error)]
pub enum PageRefusal {
    /// The disk failed, and its count of faults rose.
    #[error("the disk failed")]
    Failed,
    #[error("out of memory")]
    Memory,
}

impl From<Memory> for PageRefusal {
    ghost from_gives = { λ _ e. e ≡ refusal.Memory };

    fn from(_: Memory) -> Self {
        PageRefusal::Memory
    }
}

impl<T: Drop> From<AllocFailed<T>> for PageRefusal {
    ghost from_gives = { λ _ e. e ≡ refusal.Memory };

    fn from(_: AllocFailed<T>) -> Self {
        PageRefusal::Memory
    }
}

impl From<DiskFailed> for PageRefusal {
    ghost from_gives = { λ _ e. e ≡ refusal.Failed };

    fn from(_: DiskFailed) -> Self {
        PageRefusal::Failed
    }
}
