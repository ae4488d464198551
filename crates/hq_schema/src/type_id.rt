ghost use Rattle.std.specs.Prelude.{◌≡◌};

use std::marker::Model;

/// A type of a schema, by its place from 0 in the schema's list of types.
#[derive(Clone, Copy)]
pub struct TypeId {
    at: usize,
}

impl Model for TypeId {
    ghost use Rattle.std.specs.Prelude.{ℕ};

    ghost Value = { ℕ };

    ghost view = { λ t. t.at };

    ghost inverse = { λ n. record { at = n } };
}

impl TypeId {
    /// The type at this place.
    pub fn new(at: usize) -> Self
        ensures { result ≡ at }
    {
        TypeId { at }
    }

    /// Its place.
    pub fn at(self) -> usize
        ensures { result ≡ self }
    {
        self.at
    }
}
