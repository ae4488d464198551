ghost use Rattle.std.specs.Prelude.{◌≡◌};

use std::marker::Model;

/// An operation, by its place from 0 among the definitions of its document.
#[derive(Clone, Copy, PartialEq, Eq)]
pub struct OpRef {
    at: usize,
}

impl Model for OpRef {
    ghost use Rattle.std.specs.Prelude.{ℕ};

    ghost Value = { ℕ };

    ghost view = { λ o. o.at };

    ghost inverse = { λ n. record { at = n } };
}

impl OpRef {
    /// The operation at this place.
    pub fn new(at: usize) -> Self
        ensures { result ≡ at }
    {
        OpRef { at }
    }

    /// Its place.
    pub fn at(self) -> usize
        ensures { result ≡ self }
    {
        self.at
    }
}
