use hq_base::Memory;
use hq_faults::RequestFault;
use hq_gql_tree::Fault;
use hq_request_coerce::CoerceRefusal;

/// Why a body makes no request.
#[derive(Drop)]
pub enum RequestRefusal {
    /// It has a fault.
    Fault(RequestFault),
    Memory,
}

impl From<Memory> for RequestRefusal {
    ghost use Rattle.std.specs.Prelude.{◌≡◌};
    ghost use Rattle.hq_request.specs.declared.refusal.RequestRefusal.TheVariants as refusal;

    ghost from_gives = { λ _ e. e ≡ refusal.Memory };

    fn from(_: Memory) -> Self {
        RequestRefusal::Memory
    }
}

impl From<Fault> for RequestRefusal {
    ghost use Rattle.std.specs.Prelude.{◌≡◌};
    ghost use Rattle.hq_request.specs.Operation.{of_fault};

    ghost from_gives = { λ fault e. e ≡ of_fault fault };

    fn from(fault: Fault) -> Self {
        RequestRefusal::Fault(RequestFault::Rule(fault))
    }
}

impl From<CoerceRefusal> for RequestRefusal {
    ghost use Rattle.std.specs.Prelude.{◌≡◌};
    ghost use Rattle.hq_request.specs.Operation.{of_coerce};

    ghost from_gives = { λ cause e. e ≡ of_coerce cause };

    fn from(cause: CoerceRefusal) -> Self {
        match cause {
            CoerceRefusal::Fault(fault) => RequestRefusal::Fault(RequestFault::Rule(fault)),
            CoerceRefusal::Memory => RequestRefusal::Memory,
        }
    }
}
