//! The law, the contract of a function that does nothing.
ghost use Rattle.std.specs.Prelude.{ℕ, List as Items};
ghost use Rattle.hq_copy_definition.specs.Copied.{Copied};
ghost use Rattle.hq_laws_copy_replies.specs.Requests.Laws.{RequestsRenumbered};
ghost use Rattle.hq_model.specs.Database.{Row};
ghost use Rattle.hq_model.specs.Meta.{MetaTree};
ghost use Rattle.hq_model.specs.declared.session.Session.{Session as Caller};
ghost use Rattle.hq_model.specs.declared.table.Table.{Table as CatalogTable};

use hq_laws_copy::copied_schema_is_renumbered;
use hq_laws_renumbered::{
    fields_are_renumbered, numbers_change_origins_alone, origins_change_no_fault,
    origins_change_no_variable,
};
use hq_schema_roles::leads_where_permitted;

/// A body asks a copy for what it asks the database for, in the numbers of the copy, or it has the same first fault.
pub fn copied_requests_are_renumbered()
    ensures { (tables : Items CatalogTable) (m : MetaTree) (session : Caller) (d : Items (Items Row)) (c : Copied) (body : Items ℕ) → RequestsRenumbered tables m session d c body }
{
    leads_where_permitted();
    copied_schema_is_renumbered();
    numbers_change_origins_alone();
    origins_change_no_fault();
    origins_change_no_variable();
    fields_are_renumbered();
}
