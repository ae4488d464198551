//! The law of the faults of valid requests.
ghost use Rattle.std.specs.Prelude.{ℕ, List as Items};
ghost use Rattle.hq_faults.specs.declared.faults.RequestFault.{RequestFault as Told};
ghost use Rattle.hq_model.specs.Meta.{MetaTree};
ghost use Rattle.hq_model.specs.declared.session.Session.{Session as Caller};
ghost use Rattle.hq_model.specs.declared.table.Table.{Table as CatalogTable};
ghost use Rattle.hq_laws_request.specs.Built.Faults.{ValidFaults};

use crate::valid_builds;
use hq_gql_parser::parsed_is_due;

/// The fault of a request whose document violates no rule, and whose variables are coerced, where it has one, is one of those of
/// building.
pub fn valid_faults()
    ensures { (tables : Items CatalogTable) (meta : MetaTree) (session : Caller) (body : Items ℕ) (fault : Told) → ValidFaults tables meta session body fault }
{
    valid_builds();
    parsed_is_due();
}
