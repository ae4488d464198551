//! Selections (GraphQL October 2021, 2.4, 2.5, 2.7, 2.8). `depth` is how many brackets may still open.
ghost use Rattle.std.specs.Prelude.{map, false};
ghost use Rattle.hq_base.specs.Due.{Gives};
ghost use Rattle.hq_gql_lexer.specs.declared.token.Punct.TheVariants.{CloseBrace};
ghost use Rattle.hq_gql_tree.specs.Selections.{selection_view};
ghost use Rattle.hq_gql_parser.specs.Parsing.{some, until_punct};
ghost use Rattle.hq_gql_parser.specs.ParsingSelections.{alias_at, head_at, condition_at, some_condition_at, some_set_with, field_with, spread_with, inline_with, fragment_with, selection_at, set_at, set_with};

use crate::directives::{arguments, directives};
use crate::keyword::Keyword;
use crate::lookahead::{Lookahead, is_at, is_fragment_name};
use crate::stop::Stop;
use crate::tokens::{fragment_name, keyword, name, punct, too_deep_or_unexpected};
use hq_base::Txt;
use hq_gql_lexer::{Punct, Token};
use hq_gql_tree::{Field, Inline, Selection, SelectionList, Spread, TypeCond};
use std::alloc::Global;

// What a field begins with.
#[derive(Drop)]
struct Head {
    at: u64,
    alias: Option<Txt>,
    name: Txt,
}

// The field's name behind a colon, or the first name as it is.
#[tactic(auto, unfolding(crate::specs::ParsingSelections::alias_at))]
fn alias(alloc: Global, at: u64, first: Txt, tokens: &[Token]) -> Result<(Head, &[Token]), Stop>
    ensures { Gives (λ x. ((x.0.at, x.0.alias, x.0.name), x.1.now)) Stop.Memory (alias_at (at, first) tokens.now) result }
{
    if is_at(tokens, Lookahead::Punct(Punct::Colon)) {
        let (_colon, rest) = punct(Punct::Colon, tokens)?;
        let (_at, name, rest) = name(alloc, rest)?;
        let head = Head {
            at,
            alias: Some(first),
            name,
        };
        return Ok((head, rest));
    }
    let head = Head {
        at,
        alias: None,
        name: first,
    };
    Ok((head, tokens))
}

#[tactic(auto, unfolding(crate::specs::ParsingSelections::head_at))]
fn field_head(alloc: Global, tokens: &[Token]) -> Result<(Head, &[Token]), Stop>
    ensures { Gives (λ x. ((x.0.at, x.0.alias, x.0.name), x.1.now)) Stop.Memory (head_at tokens.now) result }
{
    let (at, first, rest) = name(alloc, tokens)?;
    alias(alloc, at, first, rest)
}

#[tactic(auto, unfolding(crate::specs::ParsingSelections::condition_at))]
pub(crate) fn condition(alloc: Global, tokens: &[Token]) -> Result<(TypeCond, &[Token]), Stop>
    ensures { Gives (λ x. (x.0, x.1.now)) Stop.Memory (condition_at tokens.now) result }
{
    let (at, rest) = keyword(Keyword::On, tokens)?;
    let (_at, name, rest) = name(alloc, rest)?;
    Ok((TypeCond { at, name }, rest))
}

#[tactic(auto, unfolding(crate::specs::ParsingSelections::some_condition_at))]
fn some_condition(alloc: Global, tokens: &[Token]) -> Result<(Option<TypeCond>, &[Token]), Stop>
    ensures { Gives (λ x. (x.0, x.1.now)) Stop.Memory (some_condition_at tokens.now) result }
{
    if is_at(tokens, Lookahead::Keyword(Keyword::On)) {
        let (found, rest) = condition(alloc, tokens)?;
        return Ok((Some(found), rest));
    }
    Ok((None, tokens))
}

// A spread, behind its `...`.
#[tactic(auto, unfolding(crate::specs::ParsingSelections::spread_with))]
fn spread(
    alloc: Global,
    depth: u32,
    at: u64,
    tokens: &[Token],
) -> Result<(Selection, &[Token]), Stop>
    ensures { Gives (λ x. (selection_view x.0, x.1.now)) Stop.Memory (spread_with depth at tokens.now) result }
{
    let (name, rest) = fragment_name(alloc, tokens)?;
    let (directives, rest) = directives(alloc, depth, false, rest)?;
    let found = Spread {
        at,
        name,
        directives,
    };
    Ok((Selection::Spread(found), rest))
}

#[cycle(selection)]
#[tactic(auto, unfolding(crate::specs::ParsingSelections::some_set_with))]
fn some_set(alloc: Global, depth: u32, tokens: &[Token]) -> Result<(SelectionList, &[Token]), Stop>
    ensures { Gives (λ x. (map selection_view x.0.items, x.1.now)) Stop.Memory (some_set_with (set_at depth) tokens.now) result }
{
    if is_at(tokens, Lookahead::Punct(Punct::OpenBrace)) {
        let (_at, found, rest) = set(alloc, depth, tokens)?;
        return Ok((found, rest));
    }
    Ok((Vec::new(alloc), tokens))
}

#[cycle(selection)]
#[tactic(auto, unfolding(crate::specs::ParsingSelections::field_with))]
fn field(alloc: Global, depth: u32, tokens: &[Token]) -> Result<(Selection, &[Token]), Stop>
    ensures { Gives (λ x. (selection_view x.0, x.1.now)) Stop.Memory (field_with depth (set_at depth) tokens.now) result }
{
    let (head, rest) = field_head(alloc, tokens)?;
    let (args, rest) = arguments(alloc, depth, false, rest)?;
    let (directives, rest) = directives(alloc, depth, false, rest)?;
    let (selections, rest) = some_set(alloc, depth, rest)?;
    let Head { at, alias, name } = head;
    let found = Field {
        at,
        alias,
        name,
        args,
        directives,
        selections,
    };
    Ok((Selection::Field(found), rest))
}

// An inline fragment, behind its `...`.
#[cycle(selection)]
#[tactic(auto, unfolding(crate::specs::ParsingSelections::inline_with))]
fn inline(
    alloc: Global,
    depth: u32,
    at: u64,
    tokens: &[Token],
) -> Result<(Selection, &[Token]), Stop>
    ensures { Gives (λ x. (selection_view x.0, x.1.now)) Stop.Memory (inline_with depth (set_at depth) at tokens.now) result }
{
    let (cond, rest) = some_condition(alloc, tokens)?;
    let (directives, rest) = directives(alloc, depth, false, rest)?;
    let (_at, selections, rest) = set(alloc, depth, rest)?;
    let found = Inline {
        at,
        cond,
        directives,
        selections,
    };
    Ok((Selection::Inline(found), rest))
}

// A spread or an inline fragment.
#[cycle(selection)]
#[tactic(auto, unfolding(crate::specs::ParsingSelections::fragment_with))]
fn spread_or_inline(
    alloc: Global,
    depth: u32,
    tokens: &[Token],
) -> Result<(Selection, &[Token]), Stop>
    ensures { Gives (λ x. (selection_view x.0, x.1.now)) Stop.Memory (fragment_with depth (set_at depth) tokens.now) result }
{
    let (at, rest) = punct(Punct::Spread, tokens)?;
    if is_fragment_name(rest) {
        return spread(alloc, depth, at, rest);
    }
    inline(alloc, depth, at, rest)
}

#[cycle(selection)]
#[tactic(auto, unfolding(crate::specs::ParsingSelections::selection_with))]
fn selection(alloc: Global, depth: u32, tokens: &[Token]) -> Result<(Selection, &[Token]), Stop>
    ensures { Gives (λ x. (selection_view x.0, x.1.now)) Stop.Memory (selection_at depth tokens.now) result }
{
    if is_at(tokens, Lookahead::Punct(Punct::Spread)) {
        return spread_or_inline(alloc, depth, tokens);
    }
    field(alloc, depth, tokens)
}

// One selection, and more up to the brace.
#[cycle(selection)]
#[tactic(auto, unfolding(crate::specs::Parsing::some))]
fn some_selections(
    alloc: Global,
    depth: u32,
    tokens: &[Token],
) -> Result<(SelectionList, &[Token]), Stop>
    ensures { Gives (λ x. (map selection_view x.0.items, x.1.now)) Stop.Memory (some (until_punct CloseBrace) (selection_at depth) tokens.now) result }
{
    let mut found = Vec::new(alloc);
    let (first, mut rest) = selection(alloc, depth, tokens)?;
    found.push(first)?;
    while !is_at(rest, Lookahead::Punct(Punct::CloseBrace)) {
        let (one, after) = selection(alloc, depth, rest)?;
        found.push(one)?;
        rest = after;
    }
    Ok((found, rest))
}

#[cycle(selection)]
#[tactic(auto, unfolding(crate::specs::ParsingSelections::set_with))]
fn opened_set(
    alloc: Global,
    depth: u32,
    tokens: &[Token],
) -> Result<(u64, SelectionList, &[Token]), Stop>
    ensures { Gives (λ x. ((x.0, map selection_view x.1.items), x.2.now)) Stop.Memory (set_with (selection_at depth) tokens.now) result }
{
    let (at, rest) = punct(Punct::OpenBrace, tokens)?;
    let (found, rest) = some_selections(alloc, depth, rest)?;
    let (_close, rest) = punct(Punct::CloseBrace, rest)?;
    Ok((at, found, rest))
}

// A selection set, with the place of its brace.
#[cycle(selection)]
pub(crate) fn set(
    alloc: Global,
    depth: u32,
    tokens: &[Token],
) -> Result<(u64, SelectionList, &[Token]), Stop>
    ensures { Gives (λ x. ((x.0, map selection_view x.1.items), x.2.now)) Stop.Memory (set_at depth tokens.now) result }
{
    if depth == 0 {
        return Err(too_deep_or_unexpected(Punct::OpenBrace, tokens));
    }
    opened_set(alloc, depth - 1, tokens)
}
