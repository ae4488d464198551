//! The law, the contract of a function that does nothing.
ghost use Rattle.std.specs.Prelude.{List as Items};
ghost use Rattle.hq_model.specs.Meta.{MetaTree};
ghost use Rattle.hq_model.specs.declared.session.Session.{Session as Caller};
ghost use Rattle.hq_model.specs.declared.table.Table.{Table as CatalogTable};
ghost use Rattle.hq_laws_request.specs.Built.Builds.{ValidBuilds};

use hq_overlap_sets::the_place_is_first;
use hq_schema_roles::{leads_where_permitted, names_differ};

/// Over a catalog and a metadata that fits it: where a document violates no rule for the schema of the session's role, and its variables
/// are coerced, building the request gives it, or breaks a limit (F32), lacks a session variable (F33, F34), or asks for what arguments
/// may not (F36 to F42).
pub fn valid_builds()
    ensures { (tables : Items CatalogTable) (m : MetaTree) (session : Caller) → ValidBuilds tables m session }
{
    leads_where_permitted();
    names_differ();
    the_place_is_first();
}
