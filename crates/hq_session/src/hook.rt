ghost use Rattle.std.specs.Prelude.{◌≡◌, List};
ghost use Rattle.hq_session.specs.Hook.{KeepsRule, Allowed};

use crate::Headers;
use hq_model::Session;

/// Who the caller is, as a hook answers it.
#[derive(Drop)]
pub enum HookAnswer {
    Session(Session),
    /// The caller is nobody who may ask.
    Denied,
    Memory,
}

/// A rule about who the caller is: which answers are allowed for which headers.
pub trait HookRule {
    ghost use Rattle.std.specs.Prelude.{List};
    ghost use Rattle.hq_session.specs.declared.header.Header.{Header};
    ghost use Rattle.hq_session.specs.declared.hook.HookAnswer.{HookAnswer};
    ghost use Rattle.hq_session.specs.declared.hook.HookAnswer.TheVariants as answer;

    /// Whether an answer is allowed for these headers.
    ghost allows: { Self → List Header → HookAnswer → Type 0 };

    /// Want of memory is always allowed.
    ghost allows_memory: { (rule : Self) (headers : List Header) → allows rule headers answer.Memory };
}

/// A rule that is lent is the same rule.
impl<P: HookRule> HookRule for &P {
    ghost allows = { λ rule headers answer. P.allows rule.now headers answer };

    ghost allows_memory = { λ rule headers. P.allows_memory rule.now headers };
}

/// Code from outside the library that decides who the caller is, beside the rule that its answers keep.
#[derive(Drop)]
pub struct Hook<P, F> {
    rule: P,
    decide: F,
}

impl<P: HookRule, F: Fn(&Headers) -> HookAnswer> Hook<P, F> {
    /// Keeps the code with its rule. The code may be called on all headers, and each of its answers is allowed.
    /// Takes no memory.
    pub fn new(rule: P, decide: F) -> Self
        requires callable { F.IsAlwaysCallable decide }
        requires allowed { Allowed F.Fn P.allows rule decide }
        ensures keeps { KeepsRule F.Fn P.allows result }
        ensures rule { result.rule ≡ rule }
    {
        Hook { rule, decide }
    }

    /// Asks the code who the caller is. The hook is one that `new` has made. Takes no memory but by the code.
    pub fn ask(&self, headers: &Headers) -> HookAnswer
        requires { KeepsRule F.Fn P.allows self.now }
        ensures { P.allows self.now.rule headers.now result }
    {
        (self.decide)(headers)
    }
}
