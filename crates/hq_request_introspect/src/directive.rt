ghost use Rattle.std.specs.Prelude.{◌≡◌, false};
ghost use Rattle.hq_base.specs.Text.{has_zero};
ghost use Rattle.hq_request_introspect.specs.Directives.{directive_text, all_directives};

/// A directive that each schema has.
#[derive(Clone, Copy)]
pub enum Directive {
    Include,
    Skip,
}

impl Directive {
    /// Both.
    pub fn all() -> [Directive; 2]
        ensures { result ≡ all_directives }
    {
        [Directive::Include, Directive::Skip]
    }

    /// How it is written.
    #[tactic(auto, unfolding(crate::specs::Directives::directive_text))]
    pub fn text(self) -> &'static str
        ensures text { result.now ≡ directive_text self }
        ensures clean { has_zero result.now ≡ false }
    {
        match self {
            Directive::Include => "include",
            Directive::Skip => "skip",
        }
    }
}
