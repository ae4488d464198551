//! The law of the statements that hq writes: each is confined for the session whose request it answers.
ghost use Rattle.std.specs.Prelude.{List as Items};
ghost use Rattle.hq_model.specs.Meta.{MetaTree};
ghost use Rattle.hq_model.specs.declared.session.Session.{Session as Caller};
ghost use Rattle.hq_model.specs.declared.table.Table.{Table as CatalogTable};
ghost use Rattle.hq_request_tree.specs.Request.{AskTree};
ghost use Rattle.hq_laws_confine.specs.Own.Asks.{AsksAreConfined};

use hq_confine_rules::statements_are_confined;
use hq_model::permissions_fit;
use hq_request_tree::requests_use_permitted;
use hq_translation::requests_are_asked;

/// The law: the statement of a typed request of a session is confined for that session. So the checker of statements says yes to it.
pub fn session_statements_are_confined()
    ensures { (tables : Items CatalogTable) (m : MetaTree) (session : Caller) (a : AskTree) → AsksAreConfined tables m session a }
{
    requests_use_permitted();
    requests_are_asked();
    permissions_fit();
    statements_are_confined();
}
