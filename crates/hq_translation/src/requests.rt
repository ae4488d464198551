//! Laws, each the contract of a function that does nothing.
ghost use Rattle.std.specs.Prelude.{List as Items};
ghost use Rattle.hq_model.specs.Database.{Row};
ghost use Rattle.hq_model.specs.Meta.{MetaTree};
ghost use Rattle.hq_model.specs.declared.session.Session.{Session as Caller};
ghost use Rattle.hq_model.specs.declared.table.Table.{Table as CatalogTable};
ghost use Rattle.hq_request_tree.specs.Request.{AskTree};
ghost use Rattle.hq_translation.specs.Asked.{IsAsked, MeansAsked, TablesAsked};

use hq_request_tree::{requests_use_permitted, touched_tables_decide};

/// The law: the table fields of a typed request are one; and its statement is well-formed for the catalog.
pub fn requests_are_asked()
    ensures tables { (tables : Items CatalogTable) (m : MetaTree) (a : AskTree) → TablesAsked tables m a }
    ensures well_formed { (tables : Items CatalogTable) (m : MetaTree) (a : AskTree) → IsAsked tables m a }
{
    requests_use_permitted();
}

/// The law: over every database of its catalog, the statement of a typed request of a session means what nested resolvers
/// give over the rows that the session may see.
pub fn requests_mean_resolved()
    ensures { (tables : Items CatalogTable) (m : MetaTree) (session : Caller) (a : AskTree) (d : Items (Items Row)) → MeansAsked tables m session a d }
{
    touched_tables_decide();
}
