//! The places of an operation's variables by the numbers of their names, in a list that serves all operations in turn.
ghost use Rattle.std.specs.Prelude.{◌≡◌, ℕ, Some, None, map, ◌==◌, ◌<◌, length, false, IfOk, if◌then◌else◌};
ghost use Rattle.std.specs.List.{list_any, position_from};
ghost use Rattle.std.specs.Option.{option_or};
ghost use Rattle.hq_gql_tree.specs.Documents.{var_def_view};
ghost use Rattle.hq_gql_nodes.specs.Names.{get_name};
ghost use Rattle.hq_rules_reach.specs.Uses.{AreNumbers};
ghost use Rattle.hq_rules_reach.specs.Variables.{numbered_place};
ghost use Rattle.hq_rules_reach.specs.Fit.{is_number, IsClear};

use crate::numbers::number_of;
use hq_base::Memory;
use hq_gql_nodes::NamePlaces;
use hq_gql_tree::VarDef;
use std::alloc::Global;

/// The place of the variable whose name has a number.
pub fn variable_at(places: &[Option<usize>], number: usize) -> Option<usize>
    ensures { result ≡ numbered_place places.now number }
{
    match places.get(number) {
        Some(place) => *place,
        None => None,
    }
}

/// No place for each number below a count.
pub fn no_places(alloc: Global, count: usize) -> Result<Vec<Option<usize>>, Memory>
    ensures length { IfOk result (λ places. length places.items ≡ count) }
    ensures clear { IfOk result (λ places. IsClear places.items) }
{
    Ok(Vec::from_elem(alloc, None, count)?)
}

// Notes a place for a number, where none is noted yet.
fn note_place(places: &mut Vec<Option<usize>>, number: usize, at: usize)
    ensures length { length places.new.items ≡ length places.old.items }
    ensures noted { number < length places.old.items → (n : ℕ) → numbered_place places.new.items n ≡ option_or (numbered_place places.old.items n) (if number == n then Some at else None) }
{
    if number < places.len() && places[number].is_none() {
        places[number] = Some(at);
    }
}

// Notes the place of a variable for the number of its name.
fn note_variable(
    places: &mut Vec<Option<usize>>,
    numbers: &NamePlaces<'_>,
    var_def: &VarDef,
    at: usize,
)
    requires { AreNumbers (get_name numbers.now) (length places.old.items) }
    ensures length { length places.new.items ≡ length places.old.items }
    ensures noted { (n : ℕ)
        → numbered_place places.new.items n
        ≡ option_or (numbered_place places.old.items n)
        (if is_number (get_name numbers.now (var_def_view var_def.now).name) n then Some at else None) }
{
    match number_of(numbers, &var_def.name) {
        Some(number) => note_place(&mut *places, number, at),
        None => {}
    }
}

/// Notes the places of variables for the numbers of their names.
pub fn note_variables(places: &mut Vec<Option<usize>>, numbers: &NamePlaces<'_>, vars: &[VarDef])
    requires numbers { AreNumbers (get_name numbers.now) (length places.old.items) }
    requires clear { IsClear places.old.items }
    ensures length { length places.new.items ≡ length places.old.items }
    ensures noted { (n : ℕ) → numbered_place places.new.items n ≡ position_from (λ v. is_number (get_name numbers.now v.name) n) 0 (map var_def_view vars.now) }
{
    for (at, var_def) in vars.iter().enumerate() {
        note_variable(&mut *places, numbers, var_def, at);
    }
}

// Clears the place for a number.
fn clear_place(places: &mut Vec<Option<usize>>, number: usize)
    ensures length { length places.new.items ≡ length places.old.items }
    ensures cleared { (n : ℕ) → numbered_place places.new.items n ≡ (if number == n then None else numbered_place places.old.items n) }
{
    if number < places.len() {
        places[number] = None;
    }
}

// Clears the place for the number of a variable's name.
fn clear_variable(places: &mut Vec<Option<usize>>, numbers: &NamePlaces<'_>, var_def: &VarDef)
    ensures length { length places.new.items ≡ length places.old.items }
    ensures cleared { (n : ℕ) → numbered_place places.new.items n ≡ (if is_number (get_name numbers.now (var_def_view var_def.now).name) n then None else numbered_place places.old.items n) }
{
    match number_of(numbers, &var_def.name) {
        Some(number) => clear_place(&mut *places, number),
        None => {}
    }
}

/// Clears the places for the numbers of variables' names, which are all that are noted.
pub fn clear_variables(places: &mut Vec<Option<usize>>, numbers: &NamePlaces<'_>, vars: &[VarDef])
    requires { (n : ℕ) → list_any (λ v. is_number (get_name numbers.now v.name) n) (map var_def_view vars.now) ≡ false → numbered_place places.old.items n ≡ None }
    ensures length { length places.new.items ≡ length places.old.items }
    ensures clear { IsClear places.new.items }
{
    for var_def in vars {
        clear_variable(&mut *places, numbers, var_def);
    }
}
