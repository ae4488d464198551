ghost use Rattle.std.specs.Prelude.{◌≡◌};
ghost use Rattle.hq_gql_parser.specs.Lookahead.{keyword_text, keyword_of, is_keyword};

use hq_base::Txt;

/// A name that the grammar gives a meaning at some places (GraphQL October 2021, 2.3, 2.8, 2.9). At all others it is a
/// name like any other.
#[derive(Clone, Copy, PartialEq)]
pub(crate) enum Keyword {
    Query,
    Mutation,
    Subscription,
    Fragment,
    On,
    True,
    False,
    Null,
}

impl Keyword {
    #[tactic(auto, unfolding(crate::specs::Lookahead::keyword_text))]
    fn text(self) -> &'static [u8]
        ensures { result.now ≡ keyword_text self }
    {
        match self {
            Keyword::Query => b"query",
            Keyword::Mutation => b"mutation",
            Keyword::Subscription => b"subscription",
            Keyword::Fragment => b"fragment",
            Keyword::On => b"on",
            Keyword::True => b"true",
            Keyword::False => b"false",
            Keyword::Null => b"null",
        }
    }
}

// Whether a name is this keyword.
pub(crate) fn is_keyword(name: &Txt, keyword: Keyword) -> bool
    ensures { result ≡ is_keyword name.now keyword }
{
    name.as_bytes() == keyword.text()
}

// The keyword that a name is, if it is one.
pub(crate) fn keyword_of(name: &Txt) -> Option<Keyword>
    ensures { result ≡ keyword_of name.now }
{
    if is_keyword(name, Keyword::Query) {
        return Some(Keyword::Query);
    }
    if is_keyword(name, Keyword::Mutation) {
        return Some(Keyword::Mutation);
    }
    if is_keyword(name, Keyword::Subscription) {
        return Some(Keyword::Subscription);
    }
    if is_keyword(name, Keyword::Fragment) {
        return Some(Keyword::Fragment);
    }
    if is_keyword(name, Keyword::On) {
        return Some(Keyword::On);
    }
    if is_keyword(name, Keyword::True) {
        return Some(Keyword::True);
    }
    if is_keyword(name, Keyword::False) {
        return Some(Keyword::False);
    }
    if is_keyword(name, Keyword::Null) {
        return Some(Keyword::Null);
    }
    None
}
