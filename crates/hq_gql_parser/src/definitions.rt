//! Operations, fragments and documents (GraphQL October 2021, 2.2, 2.3, 2.8).
ghost use Rattle.std.specs.Prelude.{◌≡◌, map};
ghost use Rattle.hq_base.specs.Due.{Gives};
ghost use Rattle.hq_gql_tree.specs.Documents.{definition_view};
ghost use Rattle.hq_gql_parser.specs.Operations.{kind_keyword};
ghost use Rattle.hq_gql_parser.specs.ParsingOperations.{some_name_at, operation_with, shorthand_at, fragment_at, definition_at, document_at};

use crate::directives::directives;
use crate::keyword::Keyword;
use crate::lookahead::{Lookahead, is_at, is_name};
use crate::selections::{condition, set};
use crate::stop::Stop;
use crate::tokens::{fragment_name, keyword, name};
use crate::variables::variables;
use hq_base::Txt;
use hq_gql_lexer::{Punct, Token};
use hq_gql_tree::{Definition, DefinitionList, Fragment, OpKind, Operation};
use std::alloc::Global;

fn kind_keyword(kind: OpKind) -> Keyword
    ensures { result ≡ kind_keyword kind }
{
    match kind {
        OpKind::Query => Keyword::Query,
        OpKind::Mutation => Keyword::Mutation,
        OpKind::Subscription => Keyword::Subscription,
    }
}

#[tactic(auto, unfolding(crate::specs::ParsingOperations::some_name_at))]
fn some_name(alloc: Global, tokens: &[Token]) -> Result<(Option<Txt>, &[Token]), Stop>
    ensures { Gives (λ x. (x.0, x.1.now)) Stop.Memory (some_name_at tokens.now) result }
{
    if is_name(tokens) {
        let (_at, found, rest) = name(alloc, tokens)?;
        return Ok((Some(found), rest));
    }
    Ok((None, tokens))
}

// An operation that begins with the keyword of its kind.
#[tactic(auto, unfolding(crate::specs::ParsingOperations::operation_with))]
fn operation(
    alloc: Global,
    depth: u32,
    kind: OpKind,
    tokens: &[Token],
) -> Result<(Definition, &[Token]), Stop>
    ensures { Gives (λ x. (definition_view x.0, x.1.now)) Stop.Memory (operation_with depth kind tokens.now) result }
{
    let (at, rest) = keyword(kind_keyword(kind), tokens)?;
    let (name, rest) = some_name(alloc, rest)?;
    let (vars, rest) = variables(alloc, depth, rest)?;
    let (directives, rest) = directives(alloc, depth, false, rest)?;
    let (_at, selections, rest) = set(alloc, depth, rest)?;
    let found = Operation {
        at,
        kind,
        name,
        vars,
        directives,
        selections,
    };
    Ok((Definition::Operation(found), rest))
}

// A query that is a selection set alone.
#[tactic(auto, unfolding(crate::specs::ParsingOperations::shorthand_at))]
fn shorthand(alloc: Global, depth: u32, tokens: &[Token]) -> Result<(Definition, &[Token]), Stop>
    ensures { Gives (λ x. (definition_view x.0, x.1.now)) Stop.Memory (shorthand_at depth tokens.now) result }
{
    let (at, selections, rest) = set(alloc, depth, tokens)?;
    let found = Operation {
        at,
        kind: OpKind::Query,
        name: None,
        vars: Vec::new(alloc),
        directives: Vec::new(alloc),
        selections,
    };
    Ok((Definition::Operation(found), rest))
}

#[tactic(auto, unfolding(crate::specs::ParsingOperations::fragment_at))]
fn fragment(alloc: Global, depth: u32, tokens: &[Token]) -> Result<(Definition, &[Token]), Stop>
    ensures { Gives (λ x. (definition_view x.0, x.1.now)) Stop.Memory (fragment_at depth tokens.now) result }
{
    let (at, rest) = keyword(Keyword::Fragment, tokens)?;
    let (name, rest) = fragment_name(alloc, rest)?;
    let (cond, rest) = condition(alloc, rest)?;
    let (directives, rest) = directives(alloc, depth, false, rest)?;
    let (_at, selections, rest) = set(alloc, depth, rest)?;
    let found = Fragment {
        at,
        name,
        cond,
        directives,
        selections,
    };
    Ok((Definition::Fragment(found), rest))
}

#[tactic(auto, unfolding(crate::specs::ParsingOperations::definition_at))]
fn definition(alloc: Global, depth: u32, tokens: &[Token]) -> Result<(Definition, &[Token]), Stop>
    ensures { Gives (λ x. (definition_view x.0, x.1.now)) Stop.Memory (definition_at depth tokens.now) result }
{
    if is_at(tokens, Lookahead::Punct(Punct::OpenBrace)) {
        return shorthand(alloc, depth, tokens);
    }
    if is_at(tokens, Lookahead::Keyword(Keyword::Fragment)) {
        return fragment(alloc, depth, tokens);
    }
    if is_at(tokens, Lookahead::Keyword(Keyword::Mutation)) {
        return operation(alloc, depth, OpKind::Mutation, tokens);
    }
    if is_at(tokens, Lookahead::Keyword(Keyword::Subscription)) {
        return operation(alloc, depth, OpKind::Subscription, tokens);
    }
    operation(alloc, depth, OpKind::Query, tokens)
}

// One definition, and more up to the end.
#[tactic(auto, unfolding(crate::specs::Parsing::some))]
pub(crate) fn definitions(
    alloc: Global,
    depth: u32,
    tokens: &[Token],
) -> Result<(DefinitionList, &[Token]), Stop>
    ensures { Gives (λ x. (map definition_view x.0.items, x.1.now)) Stop.Memory (document_at depth tokens.now) result }
{
    let mut found = Vec::new(alloc);
    let (first, mut rest) = definition(alloc, depth, tokens)?;
    found.push(first)?;
    while !is_at(rest, Lookahead::End) {
        let (one, after) = definition(alloc, depth, rest)?;
        found.push(one)?;
        rest = after;
    }
    Ok((found, rest))
}
