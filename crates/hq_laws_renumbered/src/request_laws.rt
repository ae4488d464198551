//! The law, the contract of a function that does nothing.
ghost use Rattle.std.specs.Prelude.{ℕ, List as Items};
ghost use Rattle.hq_request_coerce.specs.Variables.{VarTree};
ghost use Rattle.hq_request_collect.specs.Tree.{CollectedTrees};
ghost use Rattle.hq_laws_renumbered.specs.Resolving.Renumbering.{Renumbering};
ghost use Rattle.hq_schema_roles.specs.Access.{Access};
ghost use Rattle.hq_schema.specs.Schema.{SchemaTree};
ghost use Rattle.hq_model.specs.Schema.{Schema};
ghost use Rattle.hq_laws_renumbered.specs.Requests.Laws.{FieldsRenumbered};

/// Collected fields ask in other numbers for what they ask for, or have the same first fault: arguments, conditions, sorts, keys and
/// aggregates are read of what the schema's parts stand for.
pub fn fields_are_renumbered()
    ensures { (s z : Schema) (n : Renumbering) (a : Access) (r : SchemaTree) (vars : Items VarTree) (root there : ℕ) (fs : CollectedTrees) → FieldsRenumbered s z n a r vars root there fs }
{}
