//! Laws of links, each the contract of a function that does nothing.
ghost use Rattle.std.specs.Prelude.{List as Items};
ghost use Rattle.hq_copy_definition.specs.Laws.{FirstFromIs, RelationshipNumbered};
ghost use Rattle.hq_copy_definition.specs.Links.{Among};
ghost use Rattle.hq_model.specs.Database.{Row};
ghost use Rattle.hq_model.specs.declared.meta.Pair.{Pair as Mapped};

/// The numbers of a relationship link the rows that it links, and no others.
pub fn numbers_link()
    ensures { (ps : Items Mapped) (own remote : Items Row) → RelationshipNumbered ps own remote }
{}

/// The number of a remote row is that of the first own row that is linked to it.
pub fn first_numbers_are_least()
    ensures { (ps : Items Mapped) (own remote : Items Row) (far : Row) → Among far remote → FirstFromIs ps own remote far }
{}
