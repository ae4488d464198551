//! The law of a copy's schema, the contract of a function that does nothing.
ghost use Rattle.std.specs.Prelude.{List as Items};
ghost use Rattle.hq_copy_definition.specs.Copied.{Copied};
ghost use Rattle.hq_laws_copy.specs.Schemas.Laws.{SchemaRenumbered};
ghost use Rattle.hq_model.specs.Meta.{MetaTree};
ghost use Rattle.hq_model.specs.View.{View as Seen};
ghost use Rattle.hq_model.specs.declared.session.Session.{Session as Caller};
ghost use Rattle.hq_model.specs.declared.table.Table.{Table as CatalogTable};

/// The schema of a copy's reader is that of the session's role: names, types and their order are the same, and what each thing
/// stands for is in the numbers of the copy.
pub fn copied_schema_is_renumbered()
    ensures { (tables : Items CatalogTable) (m : MetaTree) (session : Caller) (v : Seen) (c : Copied) → SchemaRenumbered tables m session v c }
{}
