//! The law, the contract of a function that does nothing.
ghost use Rattle.std.specs.Prelude.{◌≡◌, Ok};
ghost use Rattle.hq_base.specs.Json.{JsonTree};
ghost use Rattle.hq_base.specs.Compact.{compact};
ghost use Rattle.hq_base.specs.Body.{body_of};
ghost use Rattle.hq_laws_written.specs.Json.ReadBack.{IsReadable, in_name_order};

/// What is read of a value's compact text is the value with the members of each object in ascending order of their names: for
/// every value whose numbers fit 64 bits with sign, whose names and texts are UTF-8 without a zero byte, in which no object has
/// a name twice, and that nests at most 127 deep.
pub fn compact_text_is_read_back()
    ensures { (j : JsonTree) → IsReadable j → body_of (compact j) ≡ Ok (in_name_order j) }
{}
