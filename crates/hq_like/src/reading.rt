//! The characters of a text as they are compared.
ghost use Rattle.std.specs.Prelude.{◌≡◌, ◌∷◌, [], drop, length, MatchOption};
ghost use Rattle.std.specs.Str.{chars};
ghost use Rattle.hq_base.specs.Patterns.{is_empty};
ghost use Rattle.hq_like.specs.Reading.{read, read_letter};

// A character as it is compared: under fold the letters A to Z as a to z.
pub(crate) fn read_letter(fold: bool, c: char) -> char
    ensures { result ≡ read_letter fold c }
{
    if fold { c.to_ascii_lowercase() } else { c }
}

/// The first character of a text, and what is behind it.
pub(crate) fn split_first(text: &str) -> Option<(char, &str)>
    ensures { MatchOption result (chars text.now ≡ []) (λ p. chars text.now ≡ p.0 ∷ chars p.1.now) }
{
    let mut rest = text.chars();
    match rest.next() {
        Some(first) => Some((first, rest.as_str())),
        None => None,
    }
}

/// The first character of a text as it is compared, and what is behind it.
pub(crate) fn read_first(fold: bool, text: &str) -> Option<(char, &str)>
    ensures { MatchOption result (read fold text.now ≡ []) (λ p. read fold text.now ≡ p.0 ∷ read fold p.1.now) }
{
    match split_first(text) {
        Some((c, rest)) => Some((read_letter(fold, c), rest)),
        None => None,
    }
}

/// Whether nothing is left of a text.
pub(crate) fn at_end(fold: bool, text: &str) -> bool
    ensures { result ≡ is_empty (read fold text.now) }
{
    match read_first(fold, text) {
        Some(_) => false,
        None => true,
    }
}

/// How many characters a text has.
pub(crate) fn number(text: &str) -> usize
    ensures { result ≡ length (chars text.now) }
{
    text.chars().count()
}

/// What is behind so many characters.
pub(crate) fn behind(text: &str, number: usize) -> &str
    ensures { chars result.now ≡ drop number (chars text.entry.now) }
{
    let mut rest = text;
    for turn in 0..number {
        match split_first(rest) {
            Some((_, later)) => rest = later,
            None => return rest,
        }
    }
    rest
}
