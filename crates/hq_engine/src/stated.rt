use hq_base::{Bytes, Reply};

/// What is asked for a request.
#[derive(Drop)]
pub enum Stated {
    /// Nothing: it has a fault, which this reply tells.
    Fault(Reply),
    /// Nothing: no root field starts at a table.
    NoStatement,
    /// The text of its statement.
    Text(Bytes),
}
