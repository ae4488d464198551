//! The law, the contract of a function that does nothing.
ghost use Rattle.std.specs.Prelude.{ℕ, List as Items};
ghost use Rattle.hq_request_tree.specs.Request.{AskTree};
ghost use Rattle.hq_model.specs.Meta.{MetaTree};
ghost use Rattle.hq_model.specs.declared.session.Session.{Session as Caller};
ghost use Rattle.hq_model.specs.declared.table.Table.{Table as CatalogTable};
ghost use Rattle.hq_laws_request.specs.Formed.Formed.{MakesFormed};

use crate::requests_are_built;
use hq_gql_parser::parsed_is_due;
use hq_request::requests_are_made;

/// The law: what a body makes for a session, over a metadata that fits the catalog, is a typed request of that session.
pub fn requests_are_formed()
    ensures { (tables : Items CatalogTable) (meta : MetaTree) (session : Caller) (body : Items ℕ) (ask : AskTree) → MakesFormed tables meta session body ask }
{
    requests_are_made();
    parsed_is_due();
    requests_are_built();
}
