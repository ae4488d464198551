/// How a connection ended.
#[derive(Clone, Copy, Debug)]
pub enum ConnEnd {
    /// The input ended between two requests, or a reply was written after which the request wanted the end.
    Ended,
    /// A request was refused by a reply of this status: 400, 411, 413 or 431.
    Refused { status: u16 },
    /// The input ended inside a request, of which so many bytes came.
    Cut { bytes: u64 },
    /// The last reply was written that a connection may have, its 1,000th.
    Spent,
    ReadFault,
    WriteFault,
    Memory,
}

/// Whether the connection goes on.
#[derive(Clone, Copy)]
pub enum Step {
    GoesOn,
    Ends(ConnEnd),
}

/// Whether a reply was written.
#[derive(Clone, Copy)]
pub enum Sent {
    Whole,
    Fault,
    Memory,
}
