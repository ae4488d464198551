//! Stretches of entries.

/// The entries from `from` up to, and without, `to`, and how many comparisons found them.
#[derive(Clone, Copy)]
pub struct Span {
    pub from: usize,
    pub to: usize,
    pub compared: u64,
}
