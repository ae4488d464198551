//! The laws of views, each the contract of a function that does nothing.
ghost use Rattle.std.specs.Prelude.{List as Items};
ghost use Rattle.hq_model.specs.Database.{Row};
ghost use Rattle.hq_model.specs.Grants.{Grants};
ghost use Rattle.hq_model.specs.Meta.{MetaTree};
ghost use Rattle.hq_model.specs.Schema.{Schema};
ghost use Rattle.hq_model.specs.declared.session.Session.{Session as Caller};
ghost use Rattle.hq_model.specs.declared.table.Table.{Table as CatalogTable};
ghost use Rattle.hq_request_tree.specs.Fields.{FieldTrees};
ghost use Rattle.hq_request_tree.specs.Request.{AskTree};
ghost use Rattle.hq_laws_isolation.specs.Laws.{ResolvesAlike, ViewsDecide, WorldsAgree};

/// What nested resolvers give over a database is what they give over the view of it, where a row is its position: for
/// fields that use what is granted, and for every well-formed request of a session.
pub fn resolves_alike()
    ensures fields { (fs : FieldTrees) (s : Schema) (g : Grants) (d : Items (Items Row)) → ResolvesAlike fs s g d }
    ensures requests { (tables : Items CatalogTable) (m : MetaTree) (session : Caller) (a : AskTree) (d : Items (Items Row)) → ViewsDecide tables m session a d }
{}

/// Over two databases that a session cannot tell apart, a well-formed request of it gives the same.
pub fn worlds_agree()
    ensures { (tables : Items CatalogTable) (m : MetaTree) (session : Caller) (a : AskTree) (d e : Items (Items Row)) → WorldsAgree tables m session a d e }
{}
