//! A fault of a request in words.

use crate::arguments::{lacking_argument, repeated_argument, unknown_argument};
use crate::body::{of_body, of_form};
use crate::directives::of_directive;
use crate::fields::{overlapping, unknown_field, wrong_leaf};
use crate::fragments::{
    condition_of_leaf, cycle, impossible, of_fragment, unknown_condition, unknown_fragment,
};
use crate::operations::{no_operation, no_query, not_alone, repeated_name};
use crate::role_faults::{of_arguments, of_session};
use crate::sentence::sentence;
use crate::subject::Subject;
use crate::text::{bad_syntax, bad_token};
use crate::values::{lacking_member, repeated_member, unknown_member, wrong_value};
use crate::variables::{no_input_type, of_variable, undefined, wrong_type, wrong_variable};
use hq_base::{Bytes, Json, JsonRefusal, Memory};
use hq_explain_places::{Words, put_excerpt};
use hq_faults::RequestFault;
use hq_gql_lexer::lex;
use hq_gql_nodes::{document_parts, variable_types};
use hq_gql_parser::parse;
use hq_gql_tree::{Document, Fault, RuleId};
use hq_model::Session;
use hq_schema::Schema;
use std::alloc::Global;

// What a rule of validation is violated by.
fn of_rule(words: &mut Words, subject: &Subject<'_>, rule: RuleId) {
    match rule {
        RuleId::OperationNameUniqueness => repeated_name(words, subject),
        RuleId::LoneAnonymousOperation => not_alone(words, subject),
        RuleId::SingleRootField => words.put("this subscription has not exactly one root field"),
        RuleId::FieldSelections => unknown_field(words, subject),
        RuleId::FieldSelectionMerging => overlapping(words, subject),
        RuleId::LeafFieldSelections => wrong_leaf(words, subject),
        RuleId::ArgumentNames => unknown_argument(words, subject),
        RuleId::ArgumentUniqueness => repeated_argument(words, subject),
        RuleId::RequiredArguments => lacking_argument(words, subject),
        RuleId::ValuesOfCorrectType => wrong_value(words, subject),
        RuleId::InputObjectFieldNames => unknown_member(words, subject),
        RuleId::InputObjectFieldUniqueness => repeated_member(words, subject),
        RuleId::InputObjectRequiredFields => lacking_member(words, subject),
        _ => of_other_rule(words, subject, rule),
    }
}

fn of_other_rule(words: &mut Words, subject: &Subject<'_>, rule: RuleId) {
    match rule {
        RuleId::FragmentNameUniqueness => of_fragment(words, subject, " is defined already"),
        RuleId::FragmentSpreadTypeExistence => unknown_condition(words, subject),
        RuleId::FragmentsOnCompositeTypes => condition_of_leaf(words, subject),
        RuleId::FragmentsMustBeUsed => of_fragment(words, subject, " is never spread"),
        RuleId::FragmentSpreadTargetDefined => unknown_fragment(words, subject),
        RuleId::FragmentSpreadsMustNotFormCycles => cycle(words, subject),
        RuleId::FragmentSpreadIsPossible => impossible(words, subject),
        RuleId::DirectivesAreDefined => of_directive(
            words,
            subject,
            "no directive ",
            "; there are: @include, @skip",
        ),
        RuleId::DirectivesAreInValidLocations => of_directive(
            words,
            subject,
            "",
            " may not stand here",
        ),
        RuleId::DirectivesAreUniquePerLocation => of_directive(
            words,
            subject,
            "",
            " stands here already",
        ),
        RuleId::VariableUniqueness => of_variable(words, subject, " is defined already"),
        RuleId::VariablesAreInputTypes => no_input_type(words, subject),
        RuleId::AllVariableUsesDefined => undefined(words, subject),
        RuleId::AllVariablesUsed => of_variable(words, subject, " is never used"),
        RuleId::AllVariableUsagesAreAllowed => wrong_type(words, subject),
        RuleId::OnlyQueries => no_query(words, subject),
        RuleId::RequestSize => words.put("this operation is too large"),
        _ => of_arguments(words, subject, rule),
    }
}

// What is wrong with a document.
fn of_document(
    alloc: Global,
    words: &mut Words,
    schema: &Schema,
    document: &Document,
    text: &[u8],
    body: &Json,
    fault: &Fault,
) -> Result<(), Memory> {
    let types = variable_types(alloc, schema, document)?;
    let parts = document_parts(alloc, schema, document, &types)?;
    let subject = Subject {
        schema,
        document,
        parts: &parts,
        text,
        at: fault.at.unwrap_or(0),
    };
    match fault.rule {
        RuleId::NoSuchOperation => no_operation(words, document, body),
        RuleId::VariableValue => wrong_variable(alloc, words, &subject, body)?,
        rule => of_rule(words, &subject, rule),
    }
    Ok(())
}

// What is wrong with a query's text, or with its document.
fn of_text(
    alloc: Global,
    words: &mut Words,
    schema: &Schema,
    session: &Session,
    text: &[u8],
    body: &Json,
    fault: &Fault,
) -> Result<(), Memory> {
    let at = fault.at.unwrap_or(0);
    match fault.rule {
        RuleId::InvalidToken => bad_token(alloc, words, text, at),
        RuleId::SyntaxError => bad_syntax(alloc, words, text, at),
        RuleId::MissingVariable | RuleId::UnreadableVariable => of_session(words, session, fault),
        _ => {
            let Ok(tokens) = lex(alloc, text) else {
                return Err(Memory);
            };
            let Ok(document) = parse(alloc, &tokens, text.len() as u64) else {
                return Err(Memory);
            };
            of_document(alloc, words, schema, &document, text, body, fault)?;
        }
    }
    Ok(())
}

// What is wrong with a body that is JSON, and the line of the query.
fn of_json(
    alloc: Global,
    words: &mut Words,
    schema: &Schema,
    session: &Session,
    body: &Json,
    fault: &Fault,
) -> Result<(), Memory> {
    match body.member("query") {
        Some(Json::Str(text)) if fault.rule != RuleId::RequestForm => {
            of_text(alloc, words, schema, session, text.as_bytes(), body, fault)?;
            words.put("\n");
            if let Some(at) = fault.at {
                put_excerpt(words, text.as_bytes(), at as usize);
            }
        }
        _ => {
            of_form(words, body);
            words.put("\n");
        }
    }
    Ok(())
}

// What is wrong with a body.
fn of_fault(
    alloc: Global,
    words: &mut Words,
    schema: &Schema,
    session: &Session,
    body: &[u8],
    fault: &RequestFault,
) -> Result<(), Memory> {
    match fault {
        RequestFault::Body(_) => of_body(alloc, words, body),
        RequestFault::Rule(fault) => match Json::from_body(alloc, body) {
            Ok(json) => of_json(alloc, words, schema, session, &json, fault)?,
            Err(JsonRefusal::Memory) => return Err(Memory),
            Err(_) => {}
        },
    }
    Ok(())
}

/// What a fault of a body is, where it stands, and what the role's schema has there.
pub fn fault_words(
    alloc: Global,
    schema: &Schema,
    session: &Session,
    body: &[u8],
    fault: &RequestFault,
) -> Result<Bytes, Memory> {
    let mut words = Words::new(alloc);
    of_fault(alloc, &mut words, schema, session, body, fault)?;
    words.put("  = rule ");
    words.put(fault.rule().text());
    words.put(": ");
    words.put(sentence(fault.rule()));
    words.put("\n");
    words.told()
}
