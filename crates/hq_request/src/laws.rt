//! A law of typed requests, the contract of a function that does nothing.
ghost use Rattle.std.specs.Prelude.{ℕ, List as Items};
ghost use Rattle.hq_request_tree.specs.Request.{AskTree};
ghost use Rattle.hq_schema.specs.Schema.{SchemaTree};
ghost use Rattle.hq_model.specs.Meta.{MetaTree};
ghost use Rattle.hq_model.specs.declared.session.Session.{Session as Caller};
ghost use Rattle.hq_model.specs.declared.table.Table.{Table as CatalogTable};
ghost use Rattle.hq_request.specs.Made.{Makes};

/// The law: the typed request that a body makes is made by the steps, each of which gave a value.
pub fn requests_are_made()
    ensures { (schema : SchemaTree) (tables : Items CatalogTable) (meta : MetaTree) (session : Caller) (body : Items ℕ) (ask : AskTree) → Makes schema tables meta session body ask }
{}
