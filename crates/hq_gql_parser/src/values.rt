//! Values (GraphQL October 2021, 2.9). `depth` is how many brackets may still open.
ghost use Rattle.std.specs.Prelude.{◌≡◌, map, IfOk};
ghost use Rattle.hq_base.specs.Due.{Gives};
ghost use Rattle.hq_gql_tree.specs.Values.{value_view, placed_view, argument_view};
ghost use Rattle.hq_gql_lexer.specs.declared.token.Punct.TheVariants.{CloseBracket, CloseBrace};
ghost use Rattle.hq_gql_parser.specs.Values.{name_value};
ghost use Rattle.hq_gql_parser.specs.Parsing.{all, until_punct};
ghost use Rattle.hq_gql_parser.specs.ParsingValues.{literal_at, variable_at, value_at, list_at, list_with, object_at, object_with, argument_at};

use crate::keyword::{Keyword, is_keyword};
use crate::lookahead::{Lookahead, is_at};
use crate::stop::Stop;
use crate::tokens::{name, punct, too_deep_or_unexpected};
use hq_base::{Memory, Txt};
use hq_gql_lexer::{Punct, Token, TokenKind};
use hq_gql_tree::{Argument, Placed, Value, ValueList, ValueMembers};
use std::alloc::Global;

#[tactic(auto, unfolding(crate::specs::Values::name_value))]
fn name_value(alloc: Global, name: &Txt) -> Result<Value, Memory>
    ensures { IfOk result (λ v. value_view v ≡ name_value name.now) }
{
    if is_keyword(name, Keyword::True) {
        return Ok(Value::Bool(true));
    }
    if is_keyword(name, Keyword::False) {
        return Ok(Value::Bool(false));
    }
    if is_keyword(name, Keyword::Null) {
        return Ok(Value::Null);
    }
    Ok(Value::Enum(name.copy(alloc)?))
}

// A value of one token.
#[tactic(auto, unfolding(crate::specs::ParsingValues::literal_at))]
fn literal(alloc: Global, tokens: &[Token]) -> Result<(Placed, &[Token]), Stop>
    ensures { Gives (λ x. (placed_view x.0, x.1.now)) Stop.Memory (literal_at tokens.now) result }
{
    let [token, rest @ ..] = tokens else {
        return Err(Stop::Unexpected(0));
    };
    let value = match &token.kind {
        TokenKind::Punct(_) => return Err(Stop::Unexpected(tokens.len())),
        TokenKind::Name(name) => name_value(alloc, name)?,
        TokenKind::Int(text) => Value::Int(text.copy(alloc)?),
        TokenKind::Float(text) => Value::Float(text.copy(alloc)?),
        TokenKind::Str(text) => Value::Str(text.copy(alloc)?),
    };
    Ok((
        Placed {
            at: token.from,
            value,
        },
        rest,
    ))
}

#[tactic(auto, unfolding(crate::specs::ParsingValues::variable_at))]
fn variable(alloc: Global, tokens: &[Token]) -> Result<(Placed, &[Token]), Stop>
    ensures { Gives (λ x. (placed_view x.0, x.1.now)) Stop.Memory (variable_at tokens.now) result }
{
    let (at, rest) = punct(Punct::Dollar, tokens)?;
    let (_at, name, rest) = name(alloc, rest)?;
    Ok((
        Placed {
            at,
            value: Value::Variable(name),
        },
        rest,
    ))
}

// A value. A constant one is no variable, and has none in it.
#[cycle(value)]
#[tactic(auto, unfolding(crate::specs::ParsingValues::value_with))]
pub(crate) fn value(
    alloc: Global,
    depth: u32,
    constant: bool,
    tokens: &[Token],
) -> Result<(Placed, &[Token]), Stop>
    ensures { Gives (λ x. (placed_view x.0, x.1.now)) Stop.Memory (value_at constant depth tokens.now) result }
{
    if is_at(tokens, Lookahead::Punct(Punct::OpenBracket)) {
        return list(alloc, depth, constant, tokens);
    }
    if is_at(tokens, Lookahead::Punct(Punct::OpenBrace)) {
        return object(alloc, depth, constant, tokens);
    }
    if !constant && is_at(tokens, Lookahead::Punct(Punct::Dollar)) {
        return variable(alloc, tokens);
    }
    literal(alloc, tokens)
}

#[cycle(value)]
fn list(
    alloc: Global,
    depth: u32,
    constant: bool,
    tokens: &[Token],
) -> Result<(Placed, &[Token]), Stop>
    ensures { Gives (λ x. (placed_view x.0, x.1.now)) Stop.Memory (list_at constant depth tokens.now) result }
{
    if depth == 0 {
        return Err(too_deep_or_unexpected(Punct::OpenBracket, tokens));
    }
    opened_list(alloc, depth - 1, constant, tokens)
}

#[cycle(value)]
#[tactic(auto, unfolding(crate::specs::ParsingValues::list_with))]
fn opened_list(
    alloc: Global,
    depth: u32,
    constant: bool,
    tokens: &[Token],
) -> Result<(Placed, &[Token]), Stop>
    ensures { Gives (λ x. (placed_view x.0, x.1.now)) Stop.Memory (list_with (value_at constant depth) tokens.now) result }
{
    let (at, rest) = punct(Punct::OpenBracket, tokens)?;
    let (found, rest) = elements(alloc, depth, constant, rest)?;
    let (_close, rest) = punct(Punct::CloseBracket, rest)?;
    Ok((
        Placed {
            at,
            value: Value::List(found),
        },
        rest,
    ))
}

#[cycle(value)]
fn elements(
    alloc: Global,
    depth: u32,
    constant: bool,
    tokens: &[Token],
) -> Result<(ValueList, &[Token]), Stop>
    ensures { Gives (λ x. (map placed_view x.0.items, x.1.now)) Stop.Memory (all (until_punct CloseBracket) (value_at constant depth) tokens.now) result }
{
    let mut found = Vec::new(alloc);
    let mut rest = tokens;
    while !is_at(rest, Lookahead::Punct(Punct::CloseBracket)) {
        let (one, after) = value(alloc, depth, constant, rest)?;
        found.push(one)?;
        rest = after;
    }
    Ok((found, rest))
}

#[cycle(value)]
fn object(
    alloc: Global,
    depth: u32,
    constant: bool,
    tokens: &[Token],
) -> Result<(Placed, &[Token]), Stop>
    ensures { Gives (λ x. (placed_view x.0, x.1.now)) Stop.Memory (object_at constant depth tokens.now) result }
{
    if depth == 0 {
        return Err(too_deep_or_unexpected(Punct::OpenBrace, tokens));
    }
    opened_object(alloc, depth - 1, constant, tokens)
}

#[cycle(value)]
#[tactic(auto, unfolding(crate::specs::ParsingValues::object_with))]
fn opened_object(
    alloc: Global,
    depth: u32,
    constant: bool,
    tokens: &[Token],
) -> Result<(Placed, &[Token]), Stop>
    ensures { Gives (λ x. (placed_view x.0, x.1.now)) Stop.Memory (object_with (value_at constant depth) tokens.now) result }
{
    let (at, rest) = punct(Punct::OpenBrace, tokens)?;
    let (found, rest) = members(alloc, depth, constant, rest)?;
    let (_close, rest) = punct(Punct::CloseBrace, rest)?;
    Ok((
        Placed {
            at,
            value: Value::Object(found),
        },
        rest,
    ))
}

#[cycle(value)]
fn members(
    alloc: Global,
    depth: u32,
    constant: bool,
    tokens: &[Token],
) -> Result<(ValueMembers, &[Token]), Stop>
    ensures { Gives (λ x. (map argument_view x.0.items, x.1.now)) Stop.Memory (all (until_punct CloseBrace) (argument_at constant depth) tokens.now) result }
{
    let mut found = Vec::new(alloc);
    let mut rest = tokens;
    while !is_at(rest, Lookahead::Punct(Punct::CloseBrace)) {
        let (one, after) = argument(alloc, depth, constant, rest)?;
        found.push(one)?;
        rest = after;
    }
    Ok((found, rest))
}

// An argument, or a member of an object.
#[cycle(value)]
#[tactic(auto, unfolding(crate::specs::ParsingValues::argument_with))]
pub(crate) fn argument(
    alloc: Global,
    depth: u32,
    constant: bool,
    tokens: &[Token],
) -> Result<(Argument, &[Token]), Stop>
    ensures { Gives (λ x. (argument_view x.0, x.1.now)) Stop.Memory (argument_at constant depth tokens.now) result }
{
    let (at, name, rest) = name(alloc, tokens)?;
    let (_colon, rest) = punct(Punct::Colon, rest)?;
    let (value, rest) = value(alloc, depth, constant, rest)?;
    Ok((Argument { at, name, value }, rest))
}
