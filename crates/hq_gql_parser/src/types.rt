//! Types of variables (GraphQL October 2021, 2.11).
ghost use Rattle.hq_base.specs.Due.{Gives};
ghost use Rattle.hq_gql_tree.specs.Types.{type_view};
ghost use Rattle.hq_gql_parser.specs.ParsingTypes.{named_type_at, nullable_with, non_null_type_at, type_at, list_type_at, list_type_with};

use crate::lookahead::{Lookahead, is_at};
use crate::stop::Stop;
use crate::tokens::{name, punct, too_deep_or_unexpected};
use hq_gql_lexer::{Punct, Token};
use hq_gql_tree::TypeRefTree;
use std::alloc::Global;

#[tactic(auto, unfolding(crate::specs::ParsingTypes::named_type_at))]
fn named_type(alloc: Global, tokens: &[Token]) -> Result<(u64, TypeRefTree, &[Token]), Stop>
    ensures { Gives (λ x. ((x.0, type_view x.1), x.2.now)) Stop.Memory (named_type_at tokens.now) result }
{
    let (at, name, rest) = name(alloc, tokens)?;
    Ok((at, TypeRefTree::Named { at, name }, rest))
}

// The type as it is, or not null where a `!` stands next.
#[tactic(auto, unfolding(crate::specs::ParsingTypes::non_null_type_at))]
fn non_null_type(
    alloc: Global,
    at: u64,
    ty: TypeRefTree,
    tokens: &[Token],
) -> Result<(TypeRefTree, &[Token]), Stop>
    ensures { Gives (λ x. (type_view x.0, x.1.now)) Stop.Memory (non_null_type_at (at, type_view ty) tokens.now) result }
{
    if is_at(tokens, Lookahead::Punct(Punct::Bang)) {
        let (_bang, rest) = punct(Punct::Bang, tokens)?;
        let of = Box::new(alloc, ty)?;
        return Ok((TypeRefTree::NonNull { at, of }, rest));
    }
    Ok((ty, tokens))
}

#[cycle(type_ref)]
#[tactic(auto, unfolding(crate::specs::ParsingTypes::type_with))]
pub(crate) fn type_ref(
    alloc: Global,
    depth: u32,
    tokens: &[Token],
) -> Result<(TypeRefTree, &[Token]), Stop>
    ensures { Gives (λ x. (type_view x.0, x.1.now)) Stop.Memory (type_at depth tokens.now) result }
{
    let (at, ty, rest) = nullable(alloc, depth, tokens)?;
    non_null_type(alloc, at, ty, rest)
}

// A type without a `!` behind it.
#[cycle(type_ref)]
#[tactic(auto, unfolding(crate::specs::ParsingTypes::nullable_with))]
fn nullable(
    alloc: Global,
    depth: u32,
    tokens: &[Token],
) -> Result<(u64, TypeRefTree, &[Token]), Stop>
    ensures { Gives (λ x. ((x.0, type_view x.1), x.2.now)) Stop.Memory (nullable_with (list_type_at depth) tokens.now) result }
{
    if is_at(tokens, Lookahead::Punct(Punct::OpenBracket)) {
        return list_type(alloc, depth, tokens);
    }
    named_type(alloc, tokens)
}

#[cycle(type_ref)]
fn list_type(
    alloc: Global,
    depth: u32,
    tokens: &[Token],
) -> Result<(u64, TypeRefTree, &[Token]), Stop>
    ensures { Gives (λ x. ((x.0, type_view x.1), x.2.now)) Stop.Memory (list_type_at depth tokens.now) result }
{
    if depth == 0 {
        return Err(too_deep_or_unexpected(Punct::OpenBracket, tokens));
    }
    opened_list_type(alloc, depth - 1, tokens)
}

#[cycle(type_ref)]
#[tactic(auto, unfolding(crate::specs::ParsingTypes::list_type_with))]
fn opened_list_type(
    alloc: Global,
    depth: u32,
    tokens: &[Token],
) -> Result<(u64, TypeRefTree, &[Token]), Stop>
    ensures { Gives (λ x. ((x.0, type_view x.1), x.2.now)) Stop.Memory (list_type_with (type_at depth) tokens.now) result }
{
    let (at, rest) = punct(Punct::OpenBracket, tokens)?;
    let (ty, rest) = type_ref(alloc, depth, rest)?;
    let (_close, rest) = punct(Punct::CloseBracket, rest)?;
    let of = Box::new(alloc, ty)?;
    Ok((at, TypeRefTree::List { at, of }, rest))
}
