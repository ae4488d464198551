//! The texts of faults.
ghost use Rattle.std.specs.Prelude.{◌≡◌, ◌++◌, false, IfOk, IfSome, OnOk, map, unwrap_or, option_map, codes, [], ◌∷◌};
ghost use Rattle.hq_base.specs.Json as tree;
ghost use Rattle.hq_base.specs.Json.{json_view, member_view};
ghost use Rattle.hq_base.specs.Text.{has_zero};
ghost use Rattle.hq_gql_tree.specs.Rules.{rule_text};
ghost use Rattle.hq_faults.specs.FaultTexts.{code_of, fixed_message, want_text, named_message, rule_message, body_message, message_of, place_json, extensions_json, error_json, fault_json};

use crate::{BodyFault, RequestFault};
use hq_base::{Json, Member, Members, Memory, Txt};
use hq_gql_tree::{Fault, RuleId};
use hq_model::Want;
use std::alloc::Global;

#[tactic(auto, unfolding(crate::specs::FaultTexts::code_of))]
fn code_of(rule: RuleId) -> &'static str
    ensures text { result.now ≡ code_of rule }
    ensures clean { has_zero result.now ≡ false }
{
    match rule {
        RuleId::InvalidBody => "invalid-json",
        RuleId::RequestForm => "parse-failed",
        RuleId::OnlyQueries | RuleId::CountColumns | RuleId::UnorderedColumn => "not-supported",
        RuleId::MissingVariable => "not-found",
        RuleId::UnreadableVariable => "data-exception",
        _ => "validation-failed",
    }
}

// The message of a rule, where it is the same for each of its faults.
#[tactic(auto, unfolding(crate::specs::FaultTexts::fixed_message))]
fn fixed_message(rule: RuleId) -> Option<&'static str>
    ensures text { option_map (λ t. t.now) result ≡ fixed_message rule }
    ensures clean { IfSome result (λ t. has_zero t.now ≡ false) }
{
    match rule {
        RuleId::InvalidBody => Some("body is not JSON"),
        RuleId::RequestForm => Some("body has not the form of a request"),
        RuleId::InvalidToken => Some("invalid token"),
        RuleId::SyntaxError => Some("syntax error"),
        RuleId::NoSuchOperation => Some("no such operation"),
        RuleId::OnlyQueries => Some("only queries are answered"),
        RuleId::VariableValue => Some("variable is missing or of a wrong type"),
        RuleId::RequestSize => Some("request is too large"),
        RuleId::NegativeLimit => Some("limit or offset is negative"),
        RuleId::DistinctOrder => Some("distinct_on does not match order_by"),
        RuleId::PatternEscape => Some("pattern ends in an escape"),
        RuleId::NullOperand => Some("null is not an operand"),
        RuleId::CountColumns => Some("count takes one column"),
        RuleId::SortEntries => Some("too many sort entries"),
        RuleId::UnorderedColumn => Some("column has no order"),
        _ => None,
    }
}

/// What a session variable was to be read as, in words; the empty text where that is not said.
#[tactic(auto, unfolding(crate::specs::FaultTexts::want_text))]
pub fn want_text(want: Option<Want>) -> &'static str
    ensures text { result.now ≡ want_text want }
    ensures clean { has_zero result.now ≡ false }
{
    match want {
        None => "",
        Some(Want::Integer) => "integer",
        Some(Want::Bigint) => "bigint",
        Some(Want::Boolean) => "boolean",
        Some(Want::Uuid) => "uuid",
        Some(Want::Pattern) => "pattern",
        Some(Want::IntegerList) => "list of integer",
        Some(Want::BigintList) => "list of bigint",
        Some(Want::TextList) => "list of text",
        Some(Want::BooleanList) => "list of boolean",
        Some(Want::UuidList) => "list of uuid",
    }
}

#[tactic(auto, unfolding(crate::specs::FaultTexts::body_message))]
fn body_message(cause: BodyFault) -> &'static str
    ensures text { result.now ≡ body_message cause }
    ensures clean { has_zero result.now ≡ false }
{
    match cause {
        BodyFault::NotJson => "body is not JSON",
        BodyFault::Fraction => "body has a number that is not a whole 64-bit number",
        BodyFault::ZeroByte => "body has a zero byte",
    }
}

// The name of a session variable, where one is named.
fn name_of(name: &Option<Txt>) -> &str
    ensures text { result.now ≡ unwrap_or name.now [] }
    ensures clean { has_zero result.now ≡ false }
{
    match name {
        Some(name) => {
            name.is_text();
            name.as_str()
        }
        None => "",
    }
}

// The number of a rule.
#[tactic(auto, using(crate::proofs::RuleTexts::has_no_zero))]
fn number_of(rule: RuleId) -> &'static str
    ensures text { result.now ≡ rule_text rule }
    ensures clean { has_zero result.now ≡ false }
{
    rule.text()
}

// Three pieces, one behind the other.
fn joined(alloc: Global, front: &str, middle: &str, back: &str) -> Result<Txt, Memory>
    requires front { has_zero front.now ≡ false }
    requires middle { has_zero middle.now ≡ false }
    requires back { has_zero back.now ≡ false }
    ensures { IfOk result (λ text. text ≡ front.now ++ (middle.now ++ back.now)) }
{
    let mut text = Txt::new(alloc);
    text.push_str(front)?;
    text.push_str(middle)?;
    text.push_str(back)?;
    Ok(text)
}

fn unreadable(alloc: Global, name: &str, want: &str) -> Result<Txt, Memory>
    requires name { has_zero name.now ≡ false }
    requires want { has_zero want.now ≡ false }
    ensures { IfOk result (λ text. text ≡ codes "session variable " ++ (name.now ++ (codes " is not of type " ++ want.now))) }
{
    let mut text = joined(alloc, "session variable ", name, " is not of type ")?;
    text.push_str(want)?;
    Ok(text)
}

// The message that names a session variable, or else the number of a rule of validation.
#[tactic(auto, unfolding(crate::specs::FaultTexts::named_message))]
fn named_message(alloc: Global, fault: &Fault) -> Result<Txt, Memory>
    ensures { IfOk result (λ text. text ≡ named_message fault.now fault.now.rule) }
{
    match fault.rule {
        RuleId::MissingVariable => {
            let name = name_of(&fault.name);
            joined(alloc, "session variable ", name, " is missing")
        }
        RuleId::UnreadableVariable => {
            let name = name_of(&fault.name);
            unreadable(alloc, name, want_text(fault.want))
        }
        _ => {
            let number = number_of(fault.rule);
            joined(alloc, "validation rule ", number, " is violated")
        }
    }
}

fn text_of(alloc: Global, piece: &str) -> Result<Txt, Memory>
    requires { has_zero piece.now ≡ false }
    ensures { IfOk result (λ text. text ≡ piece.now) }
{
    let mut text = Txt::new(alloc);
    text.push_str(piece)?;
    Ok(text)
}

fn rule_message(alloc: Global, fault: &Fault) -> Result<Txt, Memory>
    ensures { IfOk result (λ text. text ≡ rule_message fault.now) }
{
    match fixed_message(fault.rule) {
        Some(message) => text_of(alloc, message),
        None => named_message(alloc, fault),
    }
}

fn message_of(alloc: Global, fault: &RequestFault) -> Result<Txt, Memory>
    ensures { IfOk result (λ text. text ≡ message_of fault.now) }
{
    match fault {
        RequestFault::Body(cause) => text_of(alloc, body_message(*cause)),
        RequestFault::Rule(fault) => rule_message(alloc, fault),
    }
}

fn place_json(at: Option<u64>) -> Json
    ensures { json_view result ≡ place_json at }
{
    match at {
        Some(at) => Json::Int(i128::from(at)),
        None => Json::Null,
    }
}

// Adds a member behind the others.
fn push_member(alloc: Global, members: &mut Members, name: &str, value: Json) -> Result<(), Memory>
    requires { has_zero name.now ≡ false }
    ensures { OnOk result (map member_view members.new.items ≡ map member_view members.old.items ++ (name.now, json_view value) ∷ []) }
{
    let name = text_of(alloc, name)?;
    members.push(Member { name, value })?;
    Ok(())
}

// Adds a member that is a text.
fn push_text(alloc: Global, members: &mut Members, name: &str, text: &str) -> Result<(), Memory>
    requires name { has_zero name.now ≡ false }
    requires text { has_zero text.now ≡ false }
    ensures { OnOk result (map member_view members.new.items ≡ map member_view members.old.items ++ (name.now, tree.str text.now) ∷ []) }
{
    let value = Json::Str(text_of(alloc, text)?);
    push_member(alloc, members, name, value)
}

fn extensions_json(alloc: Global, rule: RuleId, at: Option<u64>) -> Result<Json, Memory>
    ensures { IfOk result (λ json. json_view json ≡ extensions_json (code_of rule) (rule_text rule) at) }
{
    let mut members = Vec::new(alloc);
    push_text(alloc, &mut members, "path", "$")?;
    push_text(alloc, &mut members, "code", code_of(rule))?;
    push_text(alloc, &mut members, "rule", number_of(rule))?;
    push_member(alloc, &mut members, "at", place_json(at))?;
    Ok(Json::Obj(members))
}

fn error_json(alloc: Global, fault: &RequestFault) -> Result<Json, Memory>
    ensures { IfOk result (λ json. json_view json ≡ error_json fault.now) }
{
    let message = message_of(alloc, fault)?;
    let extensions = extensions_json(alloc, fault.rule(), fault.place())?;
    let mut members = Vec::new(alloc);
    push_member(alloc, &mut members, "message", Json::Str(message))?;
    push_member(alloc, &mut members, "extensions", extensions)?;
    Ok(Json::Obj(members))
}

/// The object that tells a fault.
pub fn fault_json(alloc: Global, fault: &RequestFault) -> Result<Json, Memory>
    ensures { IfOk result (λ json. json_view json ≡ fault_json fault.now) }
{
    let mut errors = Vec::new(alloc);
    errors.push(error_json(alloc, fault)?)?;
    let mut members = Vec::new(alloc);
    push_member(alloc, &mut members, "errors", Json::Arr(errors))?;
    Ok(Json::Obj(members))
}
