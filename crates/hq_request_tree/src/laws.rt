//! Laws of typed requests, each the contract of a function that does nothing.
ghost use Rattle.std.specs.Prelude.{List as Items};
ghost use Rattle.hq_model.specs.Database.{Row};
ghost use Rattle.hq_model.specs.Grants.{Grants};
ghost use Rattle.hq_model.specs.Schema.{Schema};
ghost use Rattle.hq_model.specs.Meta.{MetaTree};
ghost use Rattle.hq_model.specs.declared.session.Session.{Session as Caller};
ghost use Rattle.hq_model.specs.declared.table.Table.{Table as CatalogTable};
ghost use Rattle.hq_request_tree.specs.Fields.{FieldTrees};
ghost use Rattle.hq_request_tree.specs.Laws.{TouchedDecide, GrantsDecide, UsesPermitted, UsesExisting};
ghost use Rattle.hq_request_tree.specs.Request.{AskTree};

use hq_model::permissions_fit;

/// What a request gives depends on what is granted of the tables that it touches alone. So a request of a session gives for
/// what it grants itself what it gives for all that the session is granted.
pub fn touched_tables_decide()
    ensures fields { (fs : FieldTrees) (s : Schema) (g h : Grants) (d : Items (Items Row)) → TouchedDecide fs s g h d }
    ensures requests { (tables : Items CatalogTable) (m : MetaTree) (session : Caller) (a : AskTree) (d : Items (Items Row)) → GrantsDecide tables m session a d }
{}

/// A well-formed request uses only columns, relationships, tables and aggregates that its role may use. These are in the
/// catalog, where the metadata fits it, and the columns of their relationships can be compared.
pub fn requests_use_permitted()
    ensures permitted { (tables : Items CatalogTable) (m : MetaTree) (a : AskTree) → UsesPermitted tables m a }
    ensures existing { (tables : Items CatalogTable) (m : MetaTree) (a : AskTree) → UsesExisting tables m a }
{
    permissions_fit();
}
