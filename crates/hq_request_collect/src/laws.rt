//! Laws of collected fields, each the contract of a function that does nothing.
ghost use Rattle.std.specs.Prelude.{List as Items};
ghost use Rattle.hq_gql_tree.specs.Selections.{SelectionTree};
ghost use Rattle.hq_request_collect.specs.Collect.{Request as RequestTree};
ghost use Rattle.hq_request_collect.specs.Laws.{Collects, LevelsSuffice};

/// The response keys of each object differ, and fields stand at most 50 deep.
pub fn collected_apart()
    ensures { (r : RequestTree) (ss : Items SelectionTree) → Collects r ss }
{}

/// Fifty levels of fields and of fragments are as deep as the limits on an operation allow.
pub fn levels_suffice()
    ensures { (r : RequestTree) (ss : Items SelectionTree) → LevelsSuffice r ss }
{}
