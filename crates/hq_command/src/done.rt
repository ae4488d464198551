ghost use Rattle.std.specs.Prelude.{◌≡◌};
ghost use Rattle.hq_command.specs.Ending.{done_status};

/// What was written whole.
#[derive(Clone, Copy)]
pub enum Done {
    /// The data of a request, or the line of a check.
    Answered,
    /// The first fault of a request.
    Faulty,
}

impl Done {
    /// The status that the program ends with.
    pub fn status(self) -> u8
        ensures { result ≡ done_status self }
    {
        match self {
            Done::Answered => 0,
            Done::Faulty => 1,
        }
    }
}
