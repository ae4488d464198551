ghost use Rattle.std.specs.Prelude.{◌≡◌, ◌≤◌, ◌↔◌, IsTrue};

use hq_io::{NumList, count_fault};

/// The calls of an object: the numbers, from 1, of those that are to fail, how many were made, and how many faults
/// there were. At its last value a count stays.
#[derive(Drop)]
pub struct Calls {
    pub failing: NumList,
    pub made: u64,
    pub faults: u64,
}

impl Calls {
    ghost use Rattle.hq_io_memory.specs.Calls.{calls_from, IsToFail, after_call, with_fault};

    /// No call yet.
    pub fn new(failing: NumList) -> Self
        ensures { result ≡ calls_from failing }
    {
        Calls {
            failing,
            made: 0,
            faults: 0,
        }
    }

    /// Counts a call, and answers whether it is to fail.
    pub fn next_fails(&mut self) -> bool
        ensures fails { IsTrue result ↔ IsToFail self.old }
        ensures calls { self.new ≡ after_call self.old }
    {
        self.made = self.made.saturating_add(1);
        self.failing.as_slice().contains(&self.made)
    }

    /// Counts a fault.
    pub fn fault(&mut self)
        ensures calls { self.new ≡ with_fault self.old }
        ensures later { self.old.faults ≤ self.new.faults }
    {
        count_fault(&mut self.faults);
    }
}
