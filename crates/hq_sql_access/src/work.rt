//! What the evaluation of a statement has done. No answer depends on it.
use std::cell::Cell;

/// How many comparisons look-ups made, staying at the greatest number, and how many rows may still be tried for EXISTS.
#[derive(Drop)]
pub struct Work {
    pub looked: Cell<u64>,
    left: Cell<u64>,
}

impl Work {
    /// Nothing is done yet, and so many rows may be tried.
    pub fn new(rows: u64) -> Work {
        Work {
            looked: Cell::new(0),
            left: Cell::new(rows),
        }
    }

    /// Tries one more row, if one may be tried.
    pub fn step(&self) -> bool {
        match self.left.get().checked_sub(1) {
            Some(left) => {
                self.left.set(left);
                true
            }
            None => false,
        }
    }

    /// Has any number of rows tried from here on.
    pub fn refill(&self) {
        self.left.set(u64::MAX);
    }

    /// Whether no row may be tried any more.
    pub fn is_spent(&self) -> bool {
        self.left.get() == 0
    }
}
