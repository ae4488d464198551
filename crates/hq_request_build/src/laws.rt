//! Laws of bound tables, each the contract of a function that does nothing.
ghost use Rattle.std.specs.Prelude.{ℕ, List as Items};
ghost use Rattle.hq_model.specs.Meta.{MetaTree};
ghost use Rattle.hq_model.specs.Schema.{Schema};
ghost use Rattle.hq_model.specs.declared.role.Role.{Role};
ghost use Rattle.hq_model.specs.declared.session.Session.{Session as Caller};
ghost use Rattle.hq_model.specs.declared.session.Var.{Var as Value};
ghost use Rattle.hq_model.specs.declared.table.Table.{Table as CatalogTable};
ghost use Rattle.hq_request_tree.specs.Fields.{FieldTrees};
ghost use Rattle.hq_request_build.specs.Laws.{BoundForSession, FiltersRefuse};

use hq_model::masks_add_no_fault;

/// With the tables that its fields touch, bound for a session, a typed request is one of that session.
pub fn bound_for_sessions()
    ensures { (tables : Items CatalogTable) (m : MetaTree) (session : Caller) (fs : FieldTrees) → BoundForSession tables m session fs }
{}

/// Masks add no fault: what is refused of a table for a session is what is refused of the filter of the role's permission.
pub fn filters_refuse()
    ensures { (role : Role) (m : MetaTree) (s : Schema) (vars : Items Value) (t : ℕ) → FiltersRefuse role m s vars t }
{
    masks_add_no_fault();
}
