//! Faults of rules at places.
ghost use Rattle.std.specs.Prelude.{◌≡◌};
ghost use Rattle.hq_gql_nodes.specs.Faults.{fault_at};

use hq_gql_tree::{Fault, RuleId};

/// A fault of a rule at a place.
pub fn fault_at(rule: RuleId, at: u64) -> Fault
    ensures { result ≡ fault_at rule at }
{
    Fault {
        rule,
        at: Some(at),
        name: None,
        want: None,
    }
}
