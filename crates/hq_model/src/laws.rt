//! Laws of permissions, each the contract of a function that does nothing.
ghost use Rattle.std.specs.Prelude.{ℕ, List as Items};
ghost use Rattle.hq_model.specs.Laws.{AreLow, MasksBind, PermissionsFit};
ghost use Rattle.hq_model.specs.Meta.{MetaTree, TrackedTree};
ghost use Rattle.hq_model.specs.Schema.{Schema};
ghost use Rattle.hq_model.specs.declared.meta.Inherited.{Inherited as Inheriting};
ghost use Rattle.hq_model.specs.declared.role.Role.{Role as Caller};
ghost use Rattle.hq_model.specs.declared.session.Var.{Var as Value};
ghost use Rattle.hq_model.specs.declared.table.Table.{Table as CatalogTable};

/// Where the filter of a role on a table binds for a session, its masks bind. Both are at most one level deeper than the
/// filters that the metadata has.
pub fn masks_add_no_fault()
    ensures binds { (role : Caller) (m : MetaTree) (s : Schema) (vars : Items Value) (t : ℕ) → MasksBind role m s vars t }
    ensures low { (role : Caller) (inherited : Items Inheriting) (k : TrackedTree) (n : ℕ) → AreLow role inherited k n }
{}

/// Over a metadata that fits a catalog, what a role may see of a table is there: the table, its columns and those of its
/// masks, and what its filter and its masks name.
pub fn permissions_fit()
    ensures { (tables : Items CatalogTable) (m : MetaTree) (role : Caller) (t : ℕ) → PermissionsFit tables m role t }
{}
