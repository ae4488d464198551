//! The law, the contract of a function that does nothing.
ghost use Rattle.std.specs.Prelude.{ℕ, List as Items};
ghost use Rattle.hq_copy_definition.specs.Copied.{Copied};
ghost use Rattle.hq_laws_copy_replies.specs.Replies.Laws.{RepliesAlike};
ghost use Rattle.hq_model.specs.Database.{Row};
ghost use Rattle.hq_model.specs.Meta.{MetaTree};
ghost use Rattle.hq_model.specs.declared.session.Session.{Session as Caller};
ghost use Rattle.hq_model.specs.declared.table.Table.{Table as CatalogTable};

use crate::copied_requests_are_renumbered;
use hq_laws_copy::{copied_schema_is_renumbered, copies_answer};
use hq_laws_renumbered::{numbers_change_origins_alone, origins_change_no_introspection};
use hq_laws_request::requests_are_formed;

/// The law of a copy: for each catalog, metadata that fits it, database and session of which a copy is made, and for every body, the
/// reply that is due to the copy's reader is the one that is due to the session.
pub fn copies_answer_each_body()
    ensures { (tables : Items CatalogTable) (m : MetaTree) (session : Caller) (d : Items (Items Row)) (c : Copied) (body : Items ℕ) → RepliesAlike tables m session d c body }
{
    copied_requests_are_renumbered();
    requests_are_formed();
    copies_answer();
    copied_schema_is_renumbered();
    numbers_change_origins_alone();
    origins_change_no_introspection();
}
