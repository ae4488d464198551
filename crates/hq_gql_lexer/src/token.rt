use hq_base::{List, Txt};

/// The tokens of a text, in order.
pub type Tokens = List<Token>;

/// A token, and the bytes that it takes: those at the places from `from`, up to but without `to`.
#[derive(Drop)]
pub struct Token {
    pub from: u64,
    pub to: u64,
    pub kind: TokenKind,
}

/// What a token is (GraphQL October 2021, 2.1.6). Names and numbers have their text, a string has its value.
#[derive(Drop)]
pub enum TokenKind {
    Punct(Punct),
    Name(Txt),
    Int(Txt),
    Float(Txt),
    Str(Txt),
}

/// A punctuator (2.1.8).
#[derive(Clone, Copy, Debug, PartialEq)]
pub enum Punct {
    /// `!`
    Bang,
    /// `$`
    Dollar,
    /// `&`
    Ampersand,
    /// `(`
    OpenParenthesis,
    /// `)`
    CloseParenthesis,
    /// `...`
    Spread,
    /// `:`
    Colon,
    /// `=`
    Equals,
    /// `@`
    At,
    /// `[`
    OpenBracket,
    /// `]`
    CloseBracket,
    /// `{`
    OpenBrace,
    /// `|`
    Pipe,
    /// `}`
    CloseBrace,
}
