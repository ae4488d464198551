ghost use Rattle.std.specs.Prelude.{◌≡◌, reverse, MatchOption, None, Some, false};
ghost use Rattle.hq_base.specs.Text.{has_zero};
ghost use Rattle.hq_session.specs.Fields.{behind_blank, behind_blanks, trimmed};

// A text without the space or the tab that it begins with.
fn behind_blank(text: &str) -> Option<&str>
    ensures { MatchOption result (behind_blank text.now ≡ None) (λ rest. behind_blank text.now ≡ Some rest.now) }
{
    match text.strip_prefix(' ') {
        Some(rest) => Some(rest),
        None => text.strip_prefix('\t'),
    }
}

// A text without the space or the tab that it ends with.
fn before_blank(text: &str) -> Option<&str>
    ensures { MatchOption result (behind_blank (reverse text.now) ≡ None) (λ rest. behind_blank (reverse text.now) ≡ Some (reverse rest.now)) }
{
    match text.strip_suffix(' ') {
        Some(rest) => Some(rest),
        None => text.strip_suffix('\t'),
    }
}

// A text without the blanks that it begins with.
fn without_front(text: &str) -> &str
    requires { has_zero text.now ≡ false }
    ensures blanks { result.now ≡ behind_blanks text.now }
    ensures clean { has_zero result.now ≡ false }
{
    let mut rest = text;
    while let Some(next) = behind_blank(rest) {
        rest = next;
    }
    rest
}

// A text without the blanks that it ends with.
fn without_back(text: &str) -> &str
    requires { has_zero text.now ≡ false }
    ensures blanks { result.now ≡ reverse (behind_blanks (reverse text.now)) }
    ensures clean { has_zero result.now ≡ false }
{
    let mut rest = text;
    while let Some(next) = before_blank(rest) {
        rest = next;
    }
    rest
}

/// A text without the spaces and tabs at both ends.
pub fn trimmed(text: &str) -> &str
    requires { has_zero text.now ≡ false }
    ensures value { result.now ≡ trimmed text.now }
    ensures clean { has_zero result.now ≡ false }
{
    without_back(without_front(text))
}
