use crate::Bytes;

/// A reply: an HTTP status and the body's bytes.
#[derive(Drop)]
pub struct Reply {
    pub status: u16,
    pub body: Bytes,
}
