//! The law of two worlds, the contract of a function that does nothing.
ghost use Rattle.std.specs.Prelude.{ℕ, List as Items};
ghost use Rattle.hq_model.specs.Database.{Row};
ghost use Rattle.hq_model.specs.Meta.{MetaTree};
ghost use Rattle.hq_model.specs.declared.session.Session.{Session as Caller};
ghost use Rattle.hq_model.specs.declared.table.Table.{Table as CatalogTable};
ghost use Rattle.hq_app.specs.Laws.{OutputsAgree};

use hq_engine::replies_agree;

/// Over two databases that a session cannot tell apart, the same output is due for the text of a request: what `run` writes
/// for `query` is a function of what the session may see.
pub fn outputs_agree()
    ensures { (tables : Items CatalogTable) (meta : MetaTree) (session : Caller) (text : Items ℕ) (d e : Items (Items Row)) → OutputsAgree tables meta session text d e }
{
    replies_agree();
}
