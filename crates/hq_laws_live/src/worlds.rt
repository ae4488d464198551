ghost use Rattle.std.specs.Prelude.{ℕ, List as Items};
ghost use Rattle.hq_model.specs.Meta.{MetaTree};
ghost use Rattle.hq_model.specs.declared.table.Table.{Table as CatalogTable};
ghost use Rattle.hq_laws_live.specs.Worlds.{Present, SendsTheSame};

use hq_engine::replies_agree;
use hq_live::what_he_cannot_tell_apart_changes_nothing;

/// What a subscriber is sent is the same over any two lists of databases that agree, event by event, for each of his sessions: for
/// every catalog, metadata that fits it, subscriber and events.
pub fn agreeing_databases_send_the_same()
    ensures { (tables : Items CatalogTable) (meta : MetaTree) (who : ℕ) (ps qs : Items Present) → SendsTheSame tables meta who ps qs }
{
    replies_agree();
    what_he_cannot_tell_apart_changes_nothing();
}
