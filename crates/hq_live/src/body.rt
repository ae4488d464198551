ghost use Rattle.std.specs.Prelude.{◌≡◌, ◌≤◌, length};

use hq_base::Bytes;
use std::marker::Model;

/// The body of a request: at most 1,048,576 bytes. Contracts see the bytes.
#[derive(Drop)]
pub struct Body {
    bytes: Bytes,
}

impl Model for Body {
    ghost use Rattle.std.specs.Prelude.{◌≤◌, ℕ, List, length};

    ghost Value = { List ℕ };

    ghost view = { λ b. b.bytes };

    ghost invariant = { λ b. length b.bytes ≤ 1048576 };
}

impl Body {
    /// The body of these bytes.
    pub fn new(bytes: Bytes) -> Self
        requires { length bytes ≤ 1048576 }
        ensures { result ≡ bytes }
    {
        Body { bytes }
    }

    /// The bytes.
    pub fn as_slice(&self) -> &[u8]
        ensures bytes { result.now ≡ self.now }
        ensures limit { length result.now ≤ 1048576 }
    {
        self.bytes.as_slice()
    }
}
