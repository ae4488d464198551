//! The schema of each role.
ghost use Rattle.std.specs.Prelude.{◌≡◌, ◌++◌, ◌∷◌, [], ℕ, List as Items, map, flat_map, codes, IfOk, OnOk, bytes_eq, true};
ghost use Rattle.std.specs.List.{list_any};
ghost use Rattle.hq_schema_of_role.specs.RoleSchema.{role_schema};
ghost use Rattle.hq_schema.specs.Schema.{schema_view};
ghost use Rattle.hq_model.specs.Fits.{fits};
ghost use Rattle.hq_model.specs.Meta.{meta_view, perm_view, tracked_view};
ghost use Rattle.hq_model.specs.declared.role.Role.TheVariants as role;
ghost use Rattle.hq_schema_roles.specs.Roles.{AreRoleSchemas, KeepsRoles, keeps_each, new_names, roles_in, schema_for, seeing_roles};

use hq_base::{List, Memory, Txt};
use hq_model::{Catalog, Inherited, Meta, Perm, Role, Tracked};
use hq_schema::Schema;
use hq_schema_of_role::derive;
use std::alloc::Global;
use std::collections::HashMap;

// Whether a role is among these.
fn is_among(roles: &List<Txt>, role: &Txt) -> bool
    ensures { result ≡ list_any (bytes_eq role.now) roles.now }
{
    roles
        .as_slice()
        .iter()
        .any(|other| role.as_bytes() == other.as_bytes())
}

// Adds a role, unless it is there.
fn add_role(alloc: Global, roles: &mut List<Txt>, role: &Txt) -> Result<(), Memory>
    ensures { OnOk result ((rest : Items (Items ℕ)) → roles.new ++ new_names roles.new rest ≡ roles.old ++ new_names roles.old (role.now ∷ rest)) }
{
    if !is_among(roles, role) {
        roles.push(role.copy(alloc)?)?;
    }
    Ok(())
}

// Adds the roles of these permissions that are not there.
fn add_roles(alloc: Global, roles: &mut List<Txt>, perms: &[Perm]) -> Result<(), Memory>
    ensures { OnOk result ((rest : Items (Items ℕ)) → roles.new ++ new_names roles.new rest ≡ roles.old ++ new_names roles.old (map (λ p. p.role) (map perm_view perms.now) ++ rest)) }
{
    for perm in perms {
        add_role(alloc, roles, &perm.role)?;
    }
    Ok(())
}

// The roles that the permissions of these tables name, each once.
fn roles_of(alloc: Global, tracked: &[Tracked]) -> Result<List<Txt>, Memory>
    ensures { IfOk result (λ roles. roles ≡ new_names [] (flat_map (λ k. map (λ p. p.role) k.perms) (map tracked_view tracked.now))) }
{
    let mut roles = List::new(alloc);
    for entry in tracked {
        add_roles(alloc, &mut roles, entry.perms.as_slice())?;
    }
    Ok(roles)
}

/// The roles that have a permission, each once, in the order of the metadata; not those that inherit alone.
pub fn roles_in(alloc: Global, meta: &Meta) -> Result<List<Txt>, Memory>
    ensures { IfOk result (λ roles. roles ≡ roles_in (meta_view meta.now)) }
{
    roles_of(alloc, meta.tracked.as_slice())
}

// Adds the inherited roles that are not there.
fn add_inherited(
    alloc: Global,
    roles: &mut List<Txt>,
    inherited: &[Inherited],
) -> Result<(), Memory>
    ensures { OnOk result (roles.new ≡ roles.old ++ new_names roles.old (map (λ i. i.role) inherited.now)) }
{
    for entry in inherited {
        add_role(alloc, roles, &entry.role)?;
    }
    Ok(())
}

// The roles that may see something, each once: those that have a permission, and behind them the inherited ones that have none.
fn seeing_roles(alloc: Global, meta: &Meta) -> Result<List<Txt>, Memory>
    ensures { IfOk result (λ roles. roles ≡ seeing_roles (meta_view meta.now)) }
{
    let mut roles = roles_in(alloc, meta)?;
    add_inherited(alloc, &mut roles, meta.inherited.as_slice())?;
    Ok(roles)
}

// The schema of the role of this name.
fn named_schema(alloc: Global, catalog: &Catalog, meta: &Meta, name: &Txt) -> Result<Schema, Memory>
    ensures { IfOk result (λ schema. schema_view schema ≡ role_schema catalog.now.tables (meta_view meta.now) (role.Named name.now)) }
{
    let role = Role::Named(name.copy(alloc)?);
    derive(alloc, catalog, meta, &role)
}

// The schemas of the roles of these names.
fn named_schemas(
    alloc: Global,
    catalog: &Catalog,
    meta: &Meta,
    names: &[Txt],
) -> Result<HashMap<Txt, Schema>, Memory>
    ensures each { IfOk result (λ kept. keeps_each kept names.now ≡ true) }
    ensures right { IfOk result (λ kept. KeepsRoles catalog.now.tables (meta_view meta.now) kept) }
{
    let mut kept = HashMap::new(alloc);
    for name in names {
        let schema = named_schema(alloc, catalog, meta, name)?;
        kept.insert(name.copy(alloc)?, schema)?;
    }
    Ok(kept)
}

// The schema of a role that sees nothing. No permission and no inherited role is one of `admin` by its name, so this stands for
// all of them.
fn other_schema(alloc: Global, catalog: &Catalog, meta: &Meta) -> Result<Schema, Memory>
    ensures { IfOk result (λ schema. schema_view schema ≡ role_schema catalog.now.tables (meta_view meta.now) (role.Named (codes "admin"))) }
{
    let mut name = Txt::new(alloc);
    name.push_str("admin")?;
    named_schema(alloc, catalog, meta, &name)
}

/// The schema of each role that a session may have.
#[derive(Drop)]
pub struct RoleSchemas {
    /// That of `admin`.
    pub admin: Schema,
    /// Those of the roles that have a permission or inherit some.
    pub named: HashMap<Txt, Schema>,
    /// That of all other roles.
    pub other: Schema,
}

impl RoleSchemas {
    /// Derives the schema of each role.
    pub fn derive(alloc: Global, catalog: &Catalog, meta: &Meta) -> Result<RoleSchemas, Memory>
        requires { fits catalog.now.tables (meta_view meta.now) ≡ true }
        ensures { IfOk result (AreRoleSchemas catalog.now.tables (meta_view meta.now)) }
    {
        let admin = derive(alloc, catalog, meta, &Role::Admin)?;
        let names = seeing_roles(alloc, meta)?;
        let named = named_schemas(alloc, catalog, meta, names.as_slice())?;
        let other = other_schema(alloc, catalog, meta)?;
        Ok(RoleSchemas {
            admin,
            named,
            other,
        })
    }

    /// The schema of a role. Takes no memory.
    pub fn find(&self, role: &Role) -> &Schema
        ensures { result.now ≡ schema_for self.now role.now }
    {
        match role {
            Role::Admin => &self.admin,
            Role::Named(name) => match self.named.get(name) {
                Some(schema) => schema,
                None => &self.other,
            },
        }
    }
}
