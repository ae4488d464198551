//! The law of two worlds, the contract of a function that does nothing.
ghost use Rattle.std.specs.Prelude.{ℕ, List as Items};
ghost use Rattle.hq_model.specs.Database.{Row};
ghost use Rattle.hq_model.specs.Meta.{MetaTree};
ghost use Rattle.hq_model.specs.declared.session.Session.{Session as Caller};
ghost use Rattle.hq_model.specs.declared.table.Table.{Table as CatalogTable};
ghost use Rattle.hq_engine.specs.Laws.{RepliesAgree};

use hq_laws_isolation::worlds_agree;
use hq_laws_request::requests_are_formed;

/// Over two databases that a session cannot tell apart, the same reply is due: for every catalog, metadata that fits it,
/// session and body.
pub fn replies_agree()
    ensures { (tables : Items CatalogTable) (meta : MetaTree) (session : Caller) (body : Items ℕ) (d e : Items (Items Row)) → RepliesAgree tables meta session body d e }
{
    requests_are_formed();
    worlds_agree();
}
