//! Definitions of variables (GraphQL October 2021, 2.10).
ghost use Rattle.std.specs.Prelude.{map};
ghost use Rattle.std.specs.Option.{option_map};
ghost use Rattle.hq_base.specs.Due.{Gives};
ghost use Rattle.hq_gql_lexer.specs.declared.token.Punct.TheVariants.{CloseParenthesis};
ghost use Rattle.hq_gql_tree.specs.Values.{placed_view};
ghost use Rattle.hq_gql_tree.specs.Documents.{var_def_view};
ghost use Rattle.hq_gql_parser.specs.Parsing.{some, until_punct};
ghost use Rattle.hq_gql_parser.specs.ParsingOperations.{default_at, variable_definition_at, listed_variables_at, variables_at};

use crate::directives::directives;
use crate::lookahead::{Lookahead, is_at};
use crate::stop::Stop;
use crate::tokens::{name, punct};
use crate::types::type_ref;
use crate::values::value;
use hq_gql_lexer::{Punct, Token};
use hq_gql_tree::{Placed, VarDef, VarDefList};
use std::alloc::Global;

#[tactic(auto, unfolding(crate::specs::ParsingOperations::default_at))]
fn default_value(
    alloc: Global,
    depth: u32,
    tokens: &[Token],
) -> Result<(Option<Placed>, &[Token]), Stop>
    ensures { Gives (λ x. (option_map placed_view x.0, x.1.now)) Stop.Memory (default_at depth tokens.now) result }
{
    if is_at(tokens, Lookahead::Punct(Punct::Equals)) {
        let (_equals, rest) = punct(Punct::Equals, tokens)?;
        let (found, rest) = value(alloc, depth, true, rest)?;
        return Ok((Some(found), rest));
    }
    Ok((None, tokens))
}

#[tactic(auto, unfolding(crate::specs::ParsingOperations::variable_definition_at))]
fn variable_definition(
    alloc: Global,
    depth: u32,
    tokens: &[Token],
) -> Result<(VarDef, &[Token]), Stop>
    ensures { Gives (λ x. (var_def_view x.0, x.1.now)) Stop.Memory (variable_definition_at depth tokens.now) result }
{
    let (at, rest) = punct(Punct::Dollar, tokens)?;
    let (_at, name, rest) = name(alloc, rest)?;
    let (_colon, rest) = punct(Punct::Colon, rest)?;
    let (ty, rest) = type_ref(alloc, depth, rest)?;
    let (default, rest) = default_value(alloc, depth, rest)?;
    let (directives, rest) = directives(alloc, depth, true, rest)?;
    let found = VarDef {
        at,
        name,
        ty,
        default,
        directives,
    };
    Ok((found, rest))
}

// One definition of a variable, and more up to the parenthesis.
#[tactic(auto, unfolding(crate::specs::Parsing::some))]
fn some_variables(
    alloc: Global,
    depth: u32,
    tokens: &[Token],
) -> Result<(VarDefList, &[Token]), Stop>
    ensures { Gives (λ x. (map var_def_view x.0.items, x.1.now)) Stop.Memory (some (until_punct CloseParenthesis) (variable_definition_at depth) tokens.now) result }
{
    let mut found = Vec::new(alloc);
    let (first, mut rest) = variable_definition(alloc, depth, tokens)?;
    found.push(first)?;
    while !is_at(rest, Lookahead::Punct(Punct::CloseParenthesis)) {
        let (one, after) = variable_definition(alloc, depth, rest)?;
        found.push(one)?;
        rest = after;
    }
    Ok((found, rest))
}

#[tactic(auto, unfolding(crate::specs::ParsingOperations::listed_variables_at))]
fn listed_variables(
    alloc: Global,
    depth: u32,
    tokens: &[Token],
) -> Result<(VarDefList, &[Token]), Stop>
    ensures { Gives (λ x. (map var_def_view x.0.items, x.1.now)) Stop.Memory (listed_variables_at depth tokens.now) result }
{
    let (_open, rest) = punct(Punct::OpenParenthesis, tokens)?;
    let (found, rest) = some_variables(alloc, depth, rest)?;
    let (_close, rest) = punct(Punct::CloseParenthesis, rest)?;
    Ok((found, rest))
}

// The definitions of variables in parentheses, or none where no parenthesis stands next.
#[tactic(auto, unfolding(crate::specs::ParsingOperations::variables_at))]
pub(crate) fn variables(
    alloc: Global,
    depth: u32,
    tokens: &[Token],
) -> Result<(VarDefList, &[Token]), Stop>
    ensures { Gives (λ x. (map var_def_view x.0.items, x.1.now)) Stop.Memory (variables_at depth tokens.now) result }
{
    if is_at(tokens, Lookahead::Punct(Punct::OpenParenthesis)) {
        return listed_variables(alloc, depth, tokens);
    }
    Ok((Vec::new(alloc), tokens))
}
