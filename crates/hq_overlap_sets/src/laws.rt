//! What the definitions say of each other.
ghost use Rattle.std.specs.Prelude.{◌≡◌, ℕ, Option};
ghost use Rattle.hq_schema.specs.Schema.{SchemaTree};
ghost use Rattle.hq_gql_tree.specs.Documents.{DocumentTree};
ghost use Rattle.hq_overlap_sets.specs.Pairs.{IsOverlap};
ghost use Rattle.hq_overlap_sets.specs.Places.{overlap_place};

/// The least place at which a document violates the rule is the one that is computed, and no other.
pub fn the_place_is_first()
    ensures first { (s : SchemaTree) (d : DocumentTree) → IsOverlap s d (overlap_place s d) }
    ensures one { (s : SchemaTree) (d : DocumentTree) (place : Option ℕ) → IsOverlap s d place → place ≡ overlap_place s d }
{}
