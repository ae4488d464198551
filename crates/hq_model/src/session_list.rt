//! Where a byte of a session list stands, and what it does there.

/// Where in a session list a byte stands: before an element, in one without quotes, inside quotes, behind a `\`, or behind
/// the quotes.
#[derive(Clone, Copy, PartialEq, Eq)]
pub enum ListState {
    Before,
    Plain,
    Quoted,
    Escaped,
    Behind,
}

/// What a byte does there, and where the next one stands.
#[derive(Clone, Copy, PartialEq, Eq)]
pub enum Step {
    /// It is a byte of the element.
    Own(ListState),
    /// It is a space, and one of the element where more of that follows.
    Gap,
    /// It is passed over.
    Pass(ListState),
    /// It ends the element.
    Comma,
    /// It ends the list.
    Close,
    Wrong,
}
