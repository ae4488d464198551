//! What the definitions say of each other.
ghost use Rattle.std.specs.Prelude.{◌≡◌, ℕ, List, Option, None, false};
ghost use Rattle.hq_overlap_classes.specs.Disputes.{Noted, IsTrueOfAll, AreKept};
ghost use Rattle.hq_overlap_sets.specs.Pairs.{IsFirst};
ghost use Rattle.hq_overlap_sets.specs.Sets.{SetTree};

/// Where no two fields of one key differ within a class of sets that is closed under spreads and fields of one key, there is no conflict.
pub fn no_dispute_is_no_conflict()
    ensures { (n : Noted) (sets : List SetTree) → IsTrueOfAll n sets → ((class : ℕ) → n.concerned class ≡ false) → IsFirst sets None }
{}

/// Sets without the fields that are in no dispute within their class, and lead to none in dispute, have the same answer.
pub fn sifting_keeps_the_answer()
    ensures { (n : Noted) (sets kept : List SetTree) (place : Option ℕ) → IsTrueOfAll n sets → AreKept n sets kept → IsFirst kept place → IsFirst sets place }
{}
