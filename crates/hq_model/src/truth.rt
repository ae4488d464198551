ghost use Rattle.std.specs.Prelude.{◌≡◌};

/// Whether a condition holds: SQL's three values (PostgreSQL, logical operators).
#[derive(Clone, Copy, Debug, PartialEq, Eq)]
pub enum Truth {
    Yes,
    No,
    /// What SQL calls NULL or unknown.
    Unknown,
}

impl Truth {
    ghost use Rattle.hq_model.specs.Logic.{is_true, truth_of, not3, and3, or3};

    /// Yes or No.
    pub fn of(holds: bool) -> Truth
        ensures { result ≡ truth_of holds }
    {
        if holds { Truth::Yes } else { Truth::No }
    }

    /// Whether it is Yes: a row is kept there, and neither at No nor at Unknown.
    pub fn is_yes(self) -> bool
        ensures { result ≡ is_true self }
    {
        self == Truth::Yes
    }

    /// NOT.
    pub fn negated(self) -> Truth
        ensures { result ≡ not3 self }
    {
        match self {
            Truth::Yes => Truth::No,
            Truth::No => Truth::Yes,
            Truth::Unknown => Truth::Unknown,
        }
    }

    /// AND.
    pub fn and(self, other: Truth) -> Truth
        ensures { result ≡ and3 self other }
    {
        match (self, other) {
            (Truth::No, _) | (_, Truth::No) => Truth::No,
            (Truth::Yes, Truth::Yes) => Truth::Yes,
            _ => Truth::Unknown,
        }
    }

    /// OR.
    pub fn or(self, other: Truth) -> Truth
        ensures { result ≡ or3 self other }
    {
        match (self, other) {
            (Truth::Yes, _) | (_, Truth::Yes) => Truth::Yes,
            (Truth::No, Truth::No) => Truth::No,
            _ => Truth::Unknown,
        }
    }
}
