//! The scalars of opaque columns: a type for each name of a type of PostgreSQL.
ghost use Rattle.std.specs.Prelude.{◌≡◌, ◌<◌, ◌++◌, IfOk, OnOk, IfSome, length, map, flat_map, option_and_then, position, bytes_eq};
ghost use Rattle.std.specs.List.{filter_map};
ghost use Rattle.std.specs.Option.{option_to_list};
ghost use Rattle.hq_base.specs.Lists.{firsts};
ghost use Rattle.hq_schema.specs.Schema.{type_ref_view, type_view};
ghost use Rattle.hq_schema_of_role.specs.Scalars.{table_scalars, with_different, scalars_of, behind_scalars, scalar_type, scalar_at, column_scalar};

use crate::reference::fixed;
use crate::shown::{ShownColumn, ShownColumnList, ShownTableList};
use hq_base::{List, Memory, Txt, Ty};
use hq_schema::{Fixed, Kind, NamedList, TypeDef, TypeId, TypeOrigin, TypeRef};
use std::alloc::Global;

// How many types each schema has.
const FIXED: u32 = 21;

/// The place behind them.
pub fn behind_scalars(scalars: &[Txt]) -> Result<u32, Memory>
    ensures { IfOk result (λ place. place ≡ behind_scalars scalars.now) }
{
    let Ok(count) = u32::try_from(scalars.len()) else {
        return Err(Memory);
    };
    FIXED.checked_add(count).ok_or(Memory)
}

// Adds the scalar of a column, where it has one.
fn push_scalar(alloc: Global, names: &mut Vec<Txt>, column: &ShownColumn) -> Result<(), Memory>
    ensures { OnOk result (names.new.items ≡ names.old.items ++ option_to_list column.now.scalar) }
{
    match &column.scalar {
        Some(name) => {
            names.push(name.copy(alloc)?)?;
            Ok(())
        }
        None => Ok(()),
    }
}

// Adds those of columns.
fn push_scalars(
    alloc: Global,
    names: &mut Vec<Txt>,
    columns: &ShownColumnList,
) -> Result<(), Memory>
    ensures { OnOk result (names.new.items ≡ names.old.items ++ filter_map (λ c. c.scalar) columns.now) }
{
    for column in columns.as_slice() {
        push_scalar(alloc, names, column)?;
    }
    Ok(())
}

// The scalars of all columns of tables.
fn all_scalars(alloc: Global, tables: &ShownTableList) -> Result<Vec<Txt>, Memory>
    ensures { IfOk result (λ names. names.items ≡ flat_map table_scalars tables.now) }
{
    let mut names = Vec::new(alloc);
    for table in tables.as_slice() {
        push_scalars(alloc, &mut names, &table.columns)?;
    }
    Ok(names)
}

// Adds a name, where it is not among these.
fn push_different(alloc: Global, names: &mut Vec<Txt>, name: &Txt) -> Result<(), Memory>
    ensures { OnOk result (names.new.items ≡ with_different names.old.items name.now) }
{
    if names.as_slice().contains(name) {
        return Ok(());
    }
    names.push(name.copy(alloc)?)?;
    Ok(())
}

// The different ones of these, in the order in which they come first.
fn different(alloc: Global, names: &[Txt]) -> Result<Vec<Txt>, Memory>
    ensures { IfOk result (λ different. different.items ≡ firsts bytes_eq names.now) }
{
    let mut different = Vec::new(alloc);
    for name in names {
        push_different(alloc, &mut different, name)?;
    }
    Ok(different)
}

/// The scalars of the opaque columns of tables, each once.
pub fn scalars_of(alloc: Global, tables: &ShownTableList) -> Result<Vec<Txt>, Memory>
    ensures { IfOk result (λ names. names.items ≡ scalars_of tables.now) }
{
    different(alloc, all_scalars(alloc, tables)?.as_slice())
}

// One of them as a type.
#[tactic(auto, unfolding(crate::specs::Scalars::scalar_type))]
fn scalar_type(alloc: Global, name: &Txt) -> Result<TypeDef, Memory>
    ensures { IfOk result (λ t. type_view t ≡ scalar_type name.now) }
{
    Ok(TypeDef {
        name: name.copy(alloc)?,
        kind: Kind::Scalar,
        fields: NamedList::empty(alloc),
        inputs: NamedList::empty(alloc),
        values: NamedList::empty(alloc),
        columns: List::new(alloc),
        origin: TypeOrigin::Scalar(Ty::Opaque),
    })
}

/// Adds these as types.
pub fn push_types(alloc: Global, types: &mut Vec<TypeDef>, scalars: &[Txt]) -> Result<(), Memory>
    ensures { OnOk result (map type_view types.new.items ≡ map type_view types.old.items ++ map scalar_type scalars.now) }
{
    for name in scalars {
        types.push(scalar_type(alloc, name)?)?;
    }
    Ok(())
}

// The type at a place among these, or else that of a column's type.
fn scalar_at(scalars: &[Txt], ty: Ty, place: Option<usize>) -> TypeRef
    requires { IfSome place (λ i. i < length scalars.now) }
    ensures { type_ref_view result ≡ scalar_at ty place }
{
    match place {
        Some(place) => TypeRef::Named(TypeId::new(FIXED as usize + place)),
        None => fixed(Fixed::Scalar(ty)),
    }
}

// The place of a name among these.
fn place_of(scalars: &[Txt], name: &Txt) -> Option<usize>
    ensures { result ≡ position (λ s. bytes_eq s name.now) scalars.now }
{
    scalars.iter().position(|scalar| *scalar == *name)
}

// The place of a column's own scalar among these.
fn scalar_place(scalars: &[Txt], column: &ShownColumn) -> Option<usize>
    ensures { result ≡ option_and_then (λ name. position (λ s. bytes_eq s name) scalars.now) column.now.scalar }
{
    match &column.scalar {
        Some(name) => place_of(scalars, name),
        None => None,
    }
}

/// The type of a column's values: its own scalar among these, or else that of its type.
pub fn column_scalar(scalars: &[Txt], column: &ShownColumn) -> TypeRef
    ensures { type_ref_view result ≡ column_scalar scalars.now column.now }
{
    scalar_at(scalars, column.ty, scalar_place(scalars, column))
}
