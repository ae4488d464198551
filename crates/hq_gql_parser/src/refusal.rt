use thiserror::Error;

/// Why tokens are no document. Each place is that of a byte in the query text, from 0.
#[derive(Clone, Copy, Debug, Error)]
pub enum ParseRefusal {
    /// The first token with which no document begins, or the text's length where the tokens end too early.
    #[error("unexpected at byte {at}")]
    Unexpected { at: u64 },
    /// The 51st `{` or `[` that is open at once.
    #[error("too deep at byte {at}")]
    TooDeep { at: u64 },
    /// There is no token.
    #[error("no token")]
    Empty,
    #[error("out of memory")]
    Memory,
}
