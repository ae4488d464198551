//! Arguments and directives (GraphQL October 2021, 2.6, 2.12).
ghost use Rattle.std.specs.Prelude.{map};
ghost use Rattle.hq_base.specs.Due.{Gives};
ghost use Rattle.hq_gql_tree.specs.Values.{argument_view, directive_view};
ghost use Rattle.hq_gql_lexer.specs.declared.token.Punct.TheVariants.{CloseParenthesis};
ghost use Rattle.hq_gql_parser.specs.Parsing.{some, until_punct};
ghost use Rattle.hq_gql_parser.specs.ParsingValues.{argument_at, listed_at, arguments_at, directive_at, directives_at};

use crate::lookahead::{Lookahead, is_at};
use crate::stop::Stop;
use crate::tokens::{name, punct};
use crate::values::argument;
use hq_gql_lexer::{Punct, Token};
use hq_gql_tree::{ArgumentList, Directive, DirectiveList};
use std::alloc::Global;

// One argument, and more up to the parenthesis.
#[tactic(auto, unfolding(crate::specs::Parsing::some))]
fn some_arguments(
    alloc: Global,
    depth: u32,
    constant: bool,
    tokens: &[Token],
) -> Result<(ArgumentList, &[Token]), Stop>
    ensures { Gives (λ x. (map argument_view x.0.items, x.1.now)) Stop.Memory (some (until_punct CloseParenthesis) (argument_at constant depth) tokens.now) result }
{
    let mut found = Vec::new(alloc);
    let (first, mut rest) = argument(alloc, depth, constant, tokens)?;
    found.push(first)?;
    while !is_at(rest, Lookahead::Punct(Punct::CloseParenthesis)) {
        let (one, after) = argument(alloc, depth, constant, rest)?;
        found.push(one)?;
        rest = after;
    }
    Ok((found, rest))
}

#[tactic(auto, unfolding(crate::specs::ParsingValues::listed_at))]
fn listed_arguments(
    alloc: Global,
    depth: u32,
    constant: bool,
    tokens: &[Token],
) -> Result<(ArgumentList, &[Token]), Stop>
    ensures { Gives (λ x. (map argument_view x.0.items, x.1.now)) Stop.Memory (listed_at constant depth tokens.now) result }
{
    let (_open, rest) = punct(Punct::OpenParenthesis, tokens)?;
    let (found, rest) = some_arguments(alloc, depth, constant, rest)?;
    let (_close, rest) = punct(Punct::CloseParenthesis, rest)?;
    Ok((found, rest))
}

// The arguments in parentheses, or none where no parenthesis stands next.
#[tactic(auto, unfolding(crate::specs::ParsingValues::arguments_at))]
pub(crate) fn arguments(
    alloc: Global,
    depth: u32,
    constant: bool,
    tokens: &[Token],
) -> Result<(ArgumentList, &[Token]), Stop>
    ensures { Gives (λ x. (map argument_view x.0.items, x.1.now)) Stop.Memory (arguments_at constant depth tokens.now) result }
{
    if is_at(tokens, Lookahead::Punct(Punct::OpenParenthesis)) {
        return listed_arguments(alloc, depth, constant, tokens);
    }
    Ok((Vec::new(alloc), tokens))
}

#[tactic(auto, unfolding(crate::specs::ParsingValues::directive_at))]
fn directive(
    alloc: Global,
    depth: u32,
    constant: bool,
    tokens: &[Token],
) -> Result<(Directive, &[Token]), Stop>
    ensures { Gives (λ x. (directive_view x.0, x.1.now)) Stop.Memory (directive_at constant depth tokens.now) result }
{
    let (at, rest) = punct(Punct::At, tokens)?;
    let (_at, name, rest) = name(alloc, rest)?;
    let (args, rest) = arguments(alloc, depth, constant, rest)?;
    Ok((Directive { at, name, args }, rest))
}

// The directives, while an `@` stands next.
pub(crate) fn directives(
    alloc: Global,
    depth: u32,
    constant: bool,
    tokens: &[Token],
) -> Result<(DirectiveList, &[Token]), Stop>
    ensures { Gives (λ x. (map directive_view x.0.items, x.1.now)) Stop.Memory (directives_at constant depth tokens.now) result }
{
    let mut found = Vec::new(alloc);
    let mut rest = tokens;
    while is_at(rest, Lookahead::Punct(Punct::At)) {
        let (one, after) = directive(alloc, depth, constant, rest)?;
        found.push(one)?;
        rest = after;
    }
    Ok((found, rest))
}
