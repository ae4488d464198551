use hq_base::{JsonRefusal, Memory, TxtRefusal};
use std::alloc::{AllocError, AllocFailed};
use thiserror::Error;

/// Why cases could not be run to their end.
#[derive(Clone, Copy, Debug, Error)]
pub enum Stop {
    #[error("a file cannot be read")]
    Unread,
    #[error("the output cannot be written")]
    Unwritten,
    #[error("the file is no JSON of whole numbers")]
    NotJson,
    #[error("a case has not its form")]
    Shape,
    #[error("out of memory")]
    Memory,
}

impl From<Memory> for Stop {
    fn from(_: Memory) -> Self {
        Stop::Memory
    }
}

impl From<AllocError> for Stop {
    fn from(_: AllocError) -> Self {
        Stop::Memory
    }
}

impl<T: Drop> From<AllocFailed<T>> for Stop {
    fn from(_: AllocFailed<T>) -> Self {
        Stop::Memory
    }
}

impl From<JsonRefusal> for Stop {
    fn from(refusal: JsonRefusal) -> Self {
        match refusal {
            JsonRefusal::Memory => Stop::Memory,
            _ => Stop::NotJson,
        }
    }
}

impl From<TxtRefusal> for Stop {
    fn from(refusal: TxtRefusal) -> Self {
        match refusal {
            TxtRefusal::Memory => Stop::Memory,
            _ => Stop::Shape,
        }
    }
}
