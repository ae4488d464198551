ghost use Rattle.std.specs.Prelude.{◌≡◌, ◌++◌, IfOk, OnOk, map, flat_map};
ghost use Rattle.hq_schema.specs.Schema.{type_view, schema_view};
ghost use Rattle.hq_model.specs.Meta.{meta_view};
ghost use Rattle.hq_schema_of_role.specs.RoleSchema.{table_types, all_types, schema_over, role_schema};

use crate::beside::{conditions, introspection, type_name_field};
use crate::fixed_types::fixed_types;
use crate::links::links_of;
use crate::parts::push_types;
use crate::places::placed;
use crate::scalars;
use crate::scalars::behind_scalars;
use crate::see::shown_tables;
use crate::shown::{PlacedTable, PlacedTableList};
use hq_base::{Memory, Txt};
use hq_model::{Catalog, Meta, Role};
use hq_schema::{Fixed, NamedList, Schema, TypeDef, TypeDefList};
use std::alloc::Global;

// Adds the types of a table among those that the role may see.
fn push_table(
    alloc: Global,
    types: &mut Vec<TypeDef>,
    scalars: &[Txt],
    tables: &PlacedTableList,
    placed: &PlacedTable,
) -> Result<(), Memory>
    ensures { OnOk result (map type_view types.new.items ≡ map type_view types.old.items ++ table_types scalars.now tables.now placed.now) }
{
    let links = links_of(alloc, tables, &placed.shown.rels)?;
    push_types(alloc, types, scalars, placed, &links)
}

// Adds the types of all tables.
fn push_tables(
    alloc: Global,
    types: &mut Vec<TypeDef>,
    scalars: &[Txt],
    tables: &PlacedTableList,
) -> Result<(), Memory>
    ensures { OnOk result (map type_view types.new.items ≡ map type_view types.old.items ++ flat_map (table_types scalars.now tables.now) tables.now) }
{
    for placed in tables.as_slice() {
        push_table(alloc, types, scalars, tables, placed)?;
    }
    Ok(())
}

// All types, where a role may see these tables.
fn all_types(
    alloc: Global,
    scalars: &[Txt],
    tables: &PlacedTableList,
) -> Result<TypeDefList, Memory>
    ensures { IfOk result (λ types. map type_view types ≡ all_types scalars.now tables.now) }
{
    let mut types = fixed_types(alloc, tables)?;
    scalars::push_types(alloc, &mut types, scalars)?;
    push_tables(alloc, &mut types, scalars, tables)?;
    NamedList::new(alloc, types)
}

// The schema where a role may see these tables.
fn schema_over(alloc: Global, scalars: &[Txt], tables: &PlacedTableList) -> Result<Schema, Memory>
    ensures { IfOk result (λ schema. schema_view schema ≡ schema_over scalars.now tables.now) }
{
    Ok(Schema {
        types: all_types(alloc, scalars, tables)?,
        query: Fixed::QueryRoot.place(),
        introspection: introspection(alloc)?,
        conditions: conditions(alloc)?,
        type_name: type_name_field(alloc)?,
    })
}

/// The schema of a role (Hasura v2, GraphQL API reference): what the role may see of the tables of a catalog, by this metadata.
/// It has no database among its arguments. Each thing in it says what it stands for, and types refer to one another by their
/// places.
#[tactic(auto, unfolding(crate::specs::RoleSchema::role_schema))]
pub fn derive(alloc: Global, catalog: &Catalog, meta: &Meta, role: &Role) -> Result<Schema, Memory>
    ensures { IfOk result (λ schema. schema_view schema ≡ role_schema catalog.now.tables (meta_view meta.now) role.now) }
{
    let shown = shown_tables(alloc, catalog, meta, role)?;
    let scalars = scalars::scalars_of(alloc, &shown)?;
    let first = behind_scalars(scalars.as_slice())?;
    let tables = placed(alloc, first, shown)?;
    schema_over(alloc, scalars.as_slice(), &tables)
}
