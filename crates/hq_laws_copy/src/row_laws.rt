//! The law of a copy's rows, the contract of a function that does nothing.
ghost use Rattle.std.specs.Prelude.{List as Items};
ghost use Rattle.hq_copy_definition.specs.Copied.{Copied};
ghost use Rattle.hq_laws_copy.specs.Rows.Laws.{RowsFit};
ghost use Rattle.hq_model.specs.Database.{Row};
ghost use Rattle.hq_model.specs.Meta.{MetaTree};
ghost use Rattle.hq_model.specs.declared.session.Session.{Session as Caller};
ghost use Rattle.hq_model.specs.declared.table.Table.{Table as CatalogTable};

/// The rows of a copy of a valid database are valid.
pub fn copied_rows_fit()
    ensures { (tables : Items CatalogTable) (m : MetaTree) (session : Caller) (d : Items (Items Row)) (c : Copied) → RowsFit tables m session d c }
{}
