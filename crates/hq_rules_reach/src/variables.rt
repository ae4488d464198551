//! The rules of the uses of variables, in one search for each operation.
ghost use Rattle.std.specs.Prelude.{◌≡◌, ◌∷◌, [], None, map, option_map, length, IfOk};
ghost use Rattle.hq_schema.specs.Schema.{schema_view, type_ref_view};
ghost use Rattle.hq_gql_tree.specs.Documents.{var_def_view, definition_view};
ghost use Rattle.hq_gql_tree.specs.View.{document_view};
ghost use Rattle.hq_gql_nodes.specs.Known.{resolved};
ghost use Rattle.hq_gql_nodes.specs.Least.{earlier};
ghost use Rattle.hq_gql_nodes.specs.Names.{get_name};
ghost use Rattle.hq_gql_nodes.specs.Nodes.{part_view, variable_types};
ghost use Rattle.hq_gql_nodes.specs.Reach.{graph_view, reached};
ghost use Rattle.hq_rules_reach.specs.Fit.{AreFit, ArePlaces, IsClear};
ghost use Rattle.hq_rules_reach.specs.Uses.{uses_view, all_uses};
ghost use Rattle.hq_rules_reach.specs.Variables.{undefined_in, unused_in, wrong_in, in_operation, no_undefined_variables, no_unused_variables, variables_in_allowed_position, use_fault, variable_use_fault};

use crate::no_undefined_variables::undefined_in;
use crate::no_unused_variables::{least_unused, used_numbers};
use crate::uses::{Uses, all_uses};
use crate::variable_places::{clear_variables, no_places, note_variables};
use crate::variables_in_allowed_position::wrong_in;
use hq_base::Memory;
use hq_gql_nodes::{Part, earlier, fault_at, reached, types_at};
use hq_gql_tree::{Definition, Document, Fault, RuleId, VarDef};
use hq_schema::{Schema, TypeRef};
use std::alloc::Global;

// The least places at which the three rules are violated, those of the two later ones only where no use is undefined.
#[derive(Clone, Copy)]
struct VariablePlaces {
    // A use that is not defined.
    undefined: Option<u64>,
    // A variable that is not used.
    unused: Option<u64>,
    // A use of a wrong type.
    wrong: Option<u64>,
}

// The least place of a variable that is not used in these definitions.
fn unused_among(
    alloc: Global,
    vars: &[VarDef],
    uses: &Uses<'_>,
    definitions: &[usize],
) -> Result<Option<u64>, Memory>
    requires { AreFit uses.now }
    ensures { IfOk result (λ place. place ≡ unused_in (uses_view uses.now.all.items) (map var_def_view vars.now) definitions.now) }
{
    if vars.is_empty() {
        return Ok(None);
    }
    let marks = used_numbers(alloc, &uses.all, uses.numbers.count, definitions)?;
    Ok(least_unused(&uses.numbers.names, &marks, vars))
}

// The lesser of the least places so far and those in these definitions, by the variables of an operation and their places.
fn places_among(
    alloc: Global,
    schema: &Schema,
    vars: &[VarDef],
    types: &[Option<TypeRef>],
    uses: &Uses<'_>,
    places: &[Option<usize>],
    definitions: &[usize],
    least: VariablePlaces,
) -> Result<VariablePlaces, Memory>
    requires types { map (λ t. option_map type_ref_view t) types.now ≡ map (λ v. resolved (schema_view schema.now) v.ty) (map var_def_view vars.now) }
    requires fit { AreFit uses.now }
    requires places { ArePlaces (get_name uses.now.numbers.names) places.now (map var_def_view vars.now) }
    ensures undefined { IfOk result (λ p. p.undefined ≡ earlier least.undefined (undefined_in (uses_view uses.now.all.items) (map var_def_view vars.now) definitions.now)) }
    ensures unused { IfOk result (λ p. p.undefined ≡ None → p.unused ≡ earlier least.unused (unused_in (uses_view uses.now.all.items) (map var_def_view vars.now) definitions.now)) }
    ensures wrong { IfOk result
        (λ p. p.undefined ≡ None
        → p.wrong
        ≡ earlier least.wrong
        (wrong_in (schema_view schema.now) (uses_view uses.now.all.items) (map var_def_view vars.now) definitions.now)) }
{
    let undefined = undefined_in(
        places,
        &uses.all,
        uses.ascending,
        definitions,
        least.undefined,
    );
    if undefined.is_some() {
        return Ok(VariablePlaces {
            undefined,
            unused: least.unused,
            wrong: least.wrong,
        });
    }
    let unused = unused_among(alloc, vars, uses, definitions)?;
    Ok(VariablePlaces {
        undefined,
        unused: earlier(least.unused, unused),
        wrong: earlier(
            least.wrong,
            wrong_in(schema, vars, types, places, &uses.all, definitions),
        ),
    })
}

// The same, where no places are noted.
fn places_with(
    alloc: Global,
    schema: &Schema,
    vars: &[VarDef],
    types: &[Option<TypeRef>],
    uses: &Uses<'_>,
    places: &mut Vec<Option<usize>>,
    definitions: &[usize],
    least: VariablePlaces,
) -> Result<VariablePlaces, Memory>
    requires types { map (λ t. option_map type_ref_view t) types.now ≡ map (λ v. resolved (schema_view schema.now) v.ty) (map var_def_view vars.now) }
    requires fit { AreFit uses.now }
    requires long { length places.old.items ≡ uses.now.numbers.count }
    requires clear { IsClear places.old.items }
    ensures long { length places.new.items ≡ length places.old.items }
    ensures clear { IsClear places.new.items }
    ensures undefined { IfOk result (λ p. p.undefined ≡ earlier least.undefined (undefined_in (uses_view uses.now.all.items) (map var_def_view vars.now) definitions.now)) }
    ensures unused { IfOk result (λ p. p.undefined ≡ None → p.unused ≡ earlier least.unused (unused_in (uses_view uses.now.all.items) (map var_def_view vars.now) definitions.now)) }
    ensures wrong { IfOk result
        (λ p. p.undefined ≡ None
        → p.wrong
        ≡ earlier least.wrong
        (wrong_in (schema_view schema.now) (uses_view uses.now.all.items) (map var_def_view vars.now) definitions.now)) }
{
    note_variables(&mut *places, &uses.numbers.names, vars);
    let found = places_among(alloc, schema, vars, types, uses, places, definitions, least);
    clear_variables(&mut *places, &uses.numbers.names, vars);
    found
}

// The same in the definitions that the operation at a place reaches, by its variables.
fn places_reached(
    alloc: Global,
    schema: &Schema,
    vars: &[VarDef],
    types: &[Option<TypeRef>],
    graph: &[Vec<usize>],
    uses: &Uses<'_>,
    places: &mut Vec<Option<usize>>,
    at: usize,
    least: VariablePlaces,
) -> Result<VariablePlaces, Memory>
    requires types { map (λ t. option_map type_ref_view t) types.now ≡ map (λ v. resolved (schema_view schema.now) v.ty) (map var_def_view vars.now) }
    requires fit { AreFit uses.now }
    requires long { length places.old.items ≡ uses.now.numbers.count }
    requires clear { IsClear places.old.items }
    ensures long { length places.new.items ≡ length places.old.items }
    ensures clear { IsClear places.new.items }
    ensures undefined { IfOk result (λ p. p.undefined ≡ earlier least.undefined (undefined_in (uses_view uses.now.all.items) (map var_def_view vars.now) (reached (graph_view graph.now) (at ∷ [])))) }
    ensures unused { IfOk result
        (λ p. p.undefined ≡ None
        → p.unused
        ≡ earlier least.unused
        (unused_in (uses_view uses.now.all.items) (map var_def_view vars.now) (reached (graph_view graph.now) (at ∷ [])))) }
    ensures wrong { IfOk result
        (λ p. p.undefined ≡ None
        → p.wrong
        ≡ earlier least.wrong
        (wrong_in (schema_view schema.now) (uses_view uses.now.all.items) (map var_def_view vars.now)
        (reached (graph_view graph.now) (at ∷ [])))) }
{
    let definitions = reached(alloc, graph, &[at])?;
    let found = places_with(
        alloc,
        schema,
        vars,
        types,
        uses,
        &mut *places,
        &definitions,
        least,
    )?;
    Ok(found)
}

// The lesser of the least places so far and those of the definition at a place, where that is an operation.
fn places_at(
    alloc: Global,
    schema: &Schema,
    types: &[Option<TypeRef>],
    graph: &[Vec<usize>],
    uses: &Uses<'_>,
    places: &mut Vec<Option<usize>>,
    at: usize,
    definition: &Definition,
    least: VariablePlaces,
) -> Result<VariablePlaces, Memory>
    requires types { map (λ t. option_map type_ref_view t) types.now ≡ variable_types (schema_view schema.now) (definition_view definition.now) }
    requires fit { AreFit uses.now }
    requires long { length places.old.items ≡ uses.now.numbers.count }
    requires clear { IsClear places.old.items }
    ensures long { length places.new.items ≡ length places.old.items }
    ensures clear { IsClear places.new.items }
    ensures undefined { IfOk result
        (λ p. p.undefined
        ≡ earlier least.undefined
        (in_operation (undefined_in (uses_view uses.now.all.items)) (graph_view graph.now) at (definition_view definition.now))) }
    ensures unused { IfOk result
        (λ p. p.undefined ≡ None
        → p.unused
        ≡ earlier least.unused
        (in_operation (unused_in (uses_view uses.now.all.items)) (graph_view graph.now) at (definition_view definition.now))) }
    ensures wrong { IfOk result
        (λ p. p.undefined ≡ None
        → p.wrong
        ≡ earlier least.wrong
        (in_operation (wrong_in (schema_view schema.now) (uses_view uses.now.all.items)) (graph_view graph.now) at
        (definition_view definition.now))) }
{
    match definition {
        Definition::Operation(operation) => places_reached(
            alloc,
            schema,
            &operation.vars,
            types,
            graph,
            uses,
            &mut *places,
            at,
            least,
        ),
        Definition::Fragment(_) => Ok(least),
    }
}

// The least places at which a document violates the three rules, by its graph, its uses, and the types of its variables.
fn least_places(
    alloc: Global,
    schema: &Schema,
    document: &Document,
    types: &[Vec<Option<TypeRef>>],
    graph: &[Vec<usize>],
    uses: &Uses<'_>,
) -> Result<VariablePlaces, Memory>
    requires types { map (λ types. map (λ t. option_map type_ref_view t) types.items) types.now ≡ map (variable_types (schema_view schema.now)) (document_view document.now) }
    requires fit { AreFit uses.now }
    ensures undefined { IfOk result (λ p. p.undefined ≡ no_undefined_variables (graph_view graph.now) (uses_view uses.now.all.items) (document_view document.now)) }
    ensures unused { IfOk result (λ p. p.undefined ≡ None → p.unused ≡ no_unused_variables (graph_view graph.now) (uses_view uses.now.all.items) (document_view document.now)) }
    ensures wrong { IfOk result
        (λ p. p.undefined ≡ None
        → p.wrong
        ≡ variables_in_allowed_position (schema_view schema.now) (graph_view graph.now) (uses_view uses.now.all.items)
        (document_view document.now)) }
{
    let mut places = no_places(alloc, uses.numbers.count)?;
    let mut least = VariablePlaces {
        undefined: None,
        unused: None,
        wrong: None,
    };
    for (at, definition) in document.definitions.iter().enumerate() {
        let types = types_at(types, at);
        least = places_at(
            alloc,
            schema,
            types,
            graph,
            uses,
            &mut places,
            at,
            definition,
            least,
        )?;
    }
    Ok(least)
}

// The fault of the first of the three rules that is violated.
fn fault_of(places: VariablePlaces) -> Option<Fault>
    ensures { result ≡ use_fault places.undefined places.unused places.wrong }
{
    if let Some(at) = places.undefined {
        return Some(fault_at(RuleId::AllVariableUsesDefined, at));
    }
    if let Some(at) = places.unused {
        return Some(fault_at(RuleId::AllVariablesUsed, at));
    }
    if let Some(at) = places.wrong {
        return Some(fault_at(RuleId::AllVariableUsagesAreAllowed, at));
    }
    None
}

/// The fault of the first of the rules 5.8.3, 5.8.4 and 5.8.5 that a document violates, at the least place at which it does, by its
/// graph, its parts, and the types of its variables.
pub fn variable_use_fault(
    alloc: Global,
    schema: &Schema,
    document: &Document,
    types: &[Vec<Option<TypeRef>>],
    graph: &[Vec<usize>],
    parts: &[Part<'_>],
) -> Result<Option<Fault>, Memory>
    requires { map (λ types. map (λ t. option_map type_ref_view t) types.items) types.now ≡ map (variable_types (schema_view schema.now)) (document_view document.now) }
    ensures { IfOk result (λ fault. fault ≡ variable_use_fault (schema_view schema.now) (graph_view graph.now) (all_uses (map part_view parts.now)) (document_view document.now)) }
{
    let uses = all_uses(alloc, parts)?;
    let places = least_places(alloc, schema, document, types, graph, &uses)?;
    Ok(fault_of(places))
}
