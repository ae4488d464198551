ghost use Rattle.std.specs.Prelude.{◌≤◌};

/// What the header of a page says: its table, the number of its piece in the table's run, and how many bytes that has.
#[derive(Clone, Copy)]
pub struct Header {
    pub table: u32,
    pub piece: u32,
    pub length: u16,
    ghost within: { length ≤ 4086 },
}
