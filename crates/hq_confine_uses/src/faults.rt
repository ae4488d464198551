//! A rule that is violated, and which of two is told.
ghost use Rattle.std.specs.Prelude.{◌≡◌};
ghost use Rattle.hq_confine_rules.specs.Faults.{worse, worst};
ghost use Rattle.hq_confine_rules.specs.Uses.{needs};
ghost use Rattle.hq_confine_uses.specs.Views.{faulted};

use hq_base::Txt;

/// A rule that a statement violates, and the alias of the place in its text.
#[derive(Clone, Copy)]
pub struct Fault<'d> {
    pub rule: u8,
    pub alias: &'d Txt,
}

/// The fault of a rule where what it asks for is missing.
pub fn missing<'d>(holds: bool, rule: u8, alias: &'d Txt) -> Option<Fault<'d>>
    ensures { faulted result ≡ worst (needs holds rule alias.now) }
{
    if holds {
        None
    } else {
        Some(Fault { rule, alias })
    }
}

/// Of two faults, one before the other in the text, that of the lesser rule, else the first.
pub fn worse<'d>(first: Option<Fault<'d>>, second: Option<Fault<'d>>) -> Option<Fault<'d>>
    ensures { faulted result ≡ worse (faulted first.entry) (faulted second.entry) }
{
    match first {
        None => second,
        Some(one) => match second {
            None => Some(one),
            Some(other) => Some(if other.rule < one.rule { other } else { one }),
        },
    }
}
