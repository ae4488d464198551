ghost use Rattle.std.specs.Prelude.{◌≡◌};
ghost use Rattle.hq_load_filter.specs.Operator.{operator_named};

use hq_model::Operator;

/// The operator of this name, where there is one: `_neq` has a second name here, `_ne`.
#[tactic(auto, unfolding(crate::specs::Operator::operator_named))]
pub fn operator_named(name: &str) -> Option<Operator>
    ensures { result ≡ operator_named name.now }
{
    if name == "_ne" {
        Operator::named("_neq")
    } else {
        Operator::named(name)
    }
}
