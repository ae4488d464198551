//! Laws of copies, each the contract of a function that does nothing.
ghost use Rattle.std.specs.Prelude.{List as Items};
ghost use Rattle.hq_copy_definition.specs.Copied.{Copied};
ghost use Rattle.hq_laws_copy.specs.Fits.Laws.{CatalogFits};
ghost use Rattle.hq_model.specs.Meta.{MetaTree};
ghost use Rattle.hq_model.specs.View.{View as Seen};
ghost use Rattle.hq_model.specs.declared.session.Session.{Session as Caller};
ghost use Rattle.hq_model.specs.declared.table.Table.{Table as CatalogTable};

/// The catalog of a copy is a catalog, and its metadata fits it, where those of the original are such.
pub fn copied_metadata_fits()
    ensures { (tables : Items CatalogTable) (m : MetaTree) (session : Caller) (v : Seen) (c : Copied) → CatalogFits tables m session v c }
{}
