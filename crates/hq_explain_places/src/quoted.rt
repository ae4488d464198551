ghost use Rattle.std.specs.Prelude.{◌≡◌};
ghost use Rattle.hq_explain_places.specs.Nodes.{is_outside, quoted_after};

/// Whether a string of JSON is read, and whether the next byte of it is escaped.
#[derive(Clone, Copy)]
pub enum Quoted {
    Outside,
    Inside,
    Escaped,
}

impl Quoted {
    /// What it is behind a byte.
    pub fn after(self, byte: u8) -> Quoted
        ensures { result ≡ quoted_after self byte }
    {
        match (self, byte) {
            (Quoted::Outside, b'"') => Quoted::Inside,
            (Quoted::Outside, _) => Quoted::Outside,
            (Quoted::Inside, b'"') => Quoted::Outside,
            (Quoted::Inside, b'\\') => Quoted::Escaped,
            (Quoted::Inside, _) | (Quoted::Escaped, _) => Quoted::Inside,
        }
    }

    /// Whether no string is read.
    pub fn is_outside(self) -> bool
        ensures { result ≡ is_outside self }
    {
        match self {
            Quoted::Outside => true,
            Quoted::Inside | Quoted::Escaped => false,
        }
    }
}
