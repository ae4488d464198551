//! The schemas that an engine keeps.
ghost use Rattle.std.specs.Prelude.{◌≡◌, IfOk, true};
ghost use Rattle.hq_schema_of_role.specs.RoleSchema.{role_schema};
ghost use Rattle.hq_schema.specs.Schema.{schema_view};
ghost use Rattle.hq_model.specs.Meta.{meta_view};
ghost use Rattle.hq_engine.specs.Kept.{AreOfRoles, found_schema};

use hq_base::Memory;
use hq_model::{Catalog, Meta, Role};
use hq_schema::Schema;
use hq_schema_of_role::derive;
use hq_schema_roles::RoleSchemas;
use std::alloc::Global;

/// The schemas that an engine keeps.
#[derive(Drop)]
pub enum Schemas {
    /// Those of all roles.
    Each(RoleSchemas),
    /// That of one role.
    One(Role, Schema),
}

/// The schema of a role: one that is kept, or one that was made for this request.
#[derive(Drop)]
pub enum FoundSchema<'a> {
    Kept(&'a Schema),
    Made(Schema),
}

impl FoundSchema<'_> {
    /// The schema that is found.
    pub fn get(&self) -> &Schema
        ensures { result.now ≡ found_schema self.now }
    {
        match self {
            FoundSchema::Kept(schema) => schema,
            FoundSchema::Made(schema) => schema,
        }
    }
}

fn is_same_role(left: &Role, right: &Role) -> bool
    ensures { result ≡ true → left.now ≡ right.now }
{
    match (left, right) {
        (Role::Admin, Role::Admin) => true,
        (Role::Named(left), Role::Named(right)) => left.as_str() == right.as_str(),
        _ => false,
    }
}

impl Schemas {
    /// The schema of a role, which is derived where it is not kept.
    pub fn find(
        &self,
        alloc: Global,
        catalog: &Catalog,
        meta: &Meta,
        role: &Role,
    ) -> Result<FoundSchema<'_>, Memory>
        requires { ∥ AreOfRoles catalog.now.tables (meta_view meta.now) self.now ∥₁ }
        ensures { IfOk result (λ found. schema_view (found_schema found) ≡ role_schema catalog.now.tables (meta_view meta.now) role.now) }
    {
        match self {
            Schemas::Each(schemas) => Ok(FoundSchema::Kept(schemas.find(role))),
            Schemas::One(kept, schema) => {
                if is_same_role(kept, role) {
                    return Ok(FoundSchema::Kept(schema));
                }
                Ok(FoundSchema::Made(derive(alloc, catalog, meta, role)?))
            }
        }
    }
}
