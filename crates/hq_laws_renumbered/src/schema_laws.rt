//! The law, the contract of a function that does nothing.
ghost use Rattle.std.specs.Prelude.{◌≡◌};
ghost use Rattle.hq_laws_renumbered.specs.Resolving.Renumbering.{Renumbering};
ghost use Rattle.hq_schema.specs.Schema.{SchemaTree};
ghost use Rattle.hq_laws_renumbered.specs.Schemas.Blank.{blank};
ghost use Rattle.hq_laws_renumbered.specs.Schemas.SchemaOver.{schema_over};

/// A schema in other numbers differs in its origins alone.
pub fn numbers_change_origins_alone()
    ensures { (n : Renumbering) (s : SchemaTree) → blank (schema_over n s) ≡ blank s }
{}
