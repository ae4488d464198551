ghost use Rattle.std.specs.Prelude.{◌≡◌};
ghost use Rattle.hq_faults.specs.Faults.{rule_of, place_of, fault_at};

use hq_gql_tree::{Fault, RuleId};

/// Why a request's body is not read.
#[derive(Clone, Copy, PartialEq, Eq)]
pub enum BodyFault {
    /// It is not one JSON text in UTF-8, nested at most 127 deep.
    NotJson,
    /// A number in it is not a whole number of 64 bits with sign.
    Fraction,
    /// A name or text in it has a zero byte.
    ZeroByte,
}

/// What is wrong with a request.
#[derive(Drop)]
pub enum RequestFault {
    /// Its body is not read.
    Body(BodyFault),
    /// It violates a rule.
    Rule(Fault),
}

impl RequestFault {
    /// The rule that is violated.
    pub fn rule(&self) -> RuleId
        ensures { result ≡ rule_of self.now }
    {
        match self {
            RequestFault::Body(_) => RuleId::InvalidBody,
            RequestFault::Rule(fault) => fault.rule,
        }
    }

    /// The place in the query text, in bytes from 0, if there is one.
    pub fn place(&self) -> Option<u64>
        ensures { result ≡ place_of self.now }
    {
        match self {
            RequestFault::Body(_) => None,
            RequestFault::Rule(fault) => fault.at,
        }
    }
}

/// A fault of this rule, at this place if there is one. It names no session variable.
pub fn fault_at(rule: RuleId, at: Option<u64>) -> RequestFault
    ensures { result ≡ fault_at rule at }
{
    RequestFault::Rule(Fault {
        rule,
        at,
        name: None,
        want: None,
    })
}
