ghost use Rattle.std.specs.Prelude.{◌≡◌, [], true, map, OnOk, IfOk};
ghost use Rattle.hq_base.specs.Due.{Gives};
ghost use Rattle.hq_model.specs.Meta.{meta_view, tracked_view};
ghost use Rattle.hq_model.specs.Schema.{schema_of};
ghost use Rattle.hq_model.specs.SchemaNames.{fixed_types, types_of, roots_of, names_differ, scalars_differ};
ghost use Rattle.hq_model.specs.Described.{scope_schema};
ghost use Rattle.hq_load_meta_names.specs.Repeats.{with_table, with_tables, scalars_due, names_due};

use crate::NameRefusal;
use crate::fixed::fixed_types;
use crate::known::{Shared, added};
use crate::own::own_names;
use crate::scalars::are_unlike;
use crate::shown::{aggregates_over, has_columns, has_key, named_columns};
use crate::types::{roots_by, types_by};
use hq_base::{List, Memory, Txt, item_path};
use hq_model::{Catalog, Described, Meta, Tracked, TxtList};
use std::alloc::Global;

// The types of a table, none where it stands in no schema.
fn types_of(alloc: Global, scope: &Described, tracked: &Tracked) -> Result<TxtList, Memory>
    ensures { IfOk result (λ names. names ≡ types_of (scope_schema scope.now) (tracked_view tracked.now)) }
{
    let columns = named_columns(alloc, tracked)?;
    let columns = columns.as_slice();
    let over = aggregates_over(alloc, scope, tracked.table, columns)?;
    types_by(alloc, has_columns(tracked), over.as_slice(), &tracked.name)
}

// The root fields of a table, none where it stands in no schema.
fn roots_of(alloc: Global, scope: &Described, tracked: &Tracked) -> Result<TxtList, Memory>
    ensures { IfOk result (λ names. names ≡ roots_of (scope_schema scope.now) (tracked_view tracked.now)) }
{
    let columns = named_columns(alloc, tracked)?;
    let keyed = has_key(scope, tracked.table, columns.as_slice());
    roots_by(alloc, has_columns(tracked), keyed, &tracked.roots)
}

// The names of a table whose entry stands at a path.
#[tactic(auto, unfolding(crate::specs::Repeats::with_table))]
fn with_table(
    alloc: Global,
    scope: &Described,
    path: &Txt,
    shared: Shared,
    tracked: &Tracked,
) -> Result<Shared, NameRefusal>
    ensures { Gives (λ shared. shared) NameRefusal.Memory (with_table (scope_schema scope.now) (meta_view scope.now.meta.now) path.now shared (tracked_view tracked.now)) result }
{
    let names = types_of(alloc, scope, tracked)?;
    let types = added(alloc, path, shared.types, names.as_slice())?;
    let names = roots_of(alloc, scope, tracked)?;
    let roots = added(alloc, path, shared.roots, names.as_slice())?;
    own_names(alloc, scope.meta, path, tracked)?;
    Ok(Shared { types, roots })
}

// The names of the tables of the list at a path.
fn with_tables(
    alloc: Global,
    scope: &Described,
    path: &Txt,
    shared: Shared,
    tracked: &[Tracked],
) -> Result<Shared, NameRefusal>
    ensures { Gives (λ shared. shared) NameRefusal.Memory (with_tables (scope_schema scope.now) (meta_view scope.now.meta.now) path.now 0 shared (map tracked_view tracked.now)) result }
{
    let mut shared = shared;
    for (place, tracked) in tracked.iter().enumerate() {
        let path = item_path(alloc, path, place)?;
        shared = with_table(alloc, scope, &path, shared, tracked)?;
    }
    Ok(shared)
}

// Whether the scalars of a table's columns differ from these types.
fn scalars_differ(
    alloc: Global,
    scope: &Described,
    types: &[Txt],
    tracked: &Tracked,
) -> Result<bool, Memory>
    ensures { IfOk result (λ differ. differ ≡ scalars_differ (scope_schema scope.now) types.now (tracked_view tracked.now)) }
{
    let columns = named_columns(alloc, tracked)?;
    Ok(are_unlike(scope, types, tracked.table, columns.as_slice()))
}

// The scalars of the tables of the list at a path, beside all other types.
fn check_scalars(
    alloc: Global,
    scope: &Described,
    types: &[Txt],
    path: &Txt,
    tracked: &[Tracked],
) -> Result<(), NameRefusal>
    ensures { Gives (λ done. done) NameRefusal.Memory (scalars_due (scope_schema scope.now) types.now path.now 0 (map tracked_view tracked.now)) result }
{
    for (place, tracked) in tracked.iter().enumerate() {
        if !scalars_differ(alloc, scope, types, tracked)? {
            return Err(NameRefusal::Repeated {
                path: item_path(alloc, path, place)?,
            });
        }
    }
    Ok(())
}

// The names of all tables, and then the scalars beside them.
#[tactic(auto, unfolding(crate::specs::Repeats::names_due))]
fn names_of(alloc: Global, catalog: &Catalog, meta: &Meta, path: &Txt) -> Result<(), NameRefusal>
    ensures { Gives (λ done. done) NameRefusal.Memory (names_due (schema_of catalog.now.tables (meta_view meta.now)) (meta_view meta.now) path.now) result }
{
    let scope = Described { catalog, meta };
    let known = Shared {
        types: fixed_types(alloc)?,
        roots: List::new(alloc),
    };
    let tracked = meta.tracked.as_slice();
    let all = with_tables(alloc, &scope, path, known, tracked)?;
    check_scalars(alloc, &scope, all.types.as_slice(), path, tracked)
}

/// Refuses the first name that stands twice in the schema of `admin`, in the order of the tracked tables: of each its types,
/// its root fields, its columns and its relationships; and then the scalar of an opaque column that is named as another type. The list
/// of tables stands at `path` in the file.
pub fn check_names(
    alloc: Global,
    catalog: &Catalog,
    meta: &Meta,
    path: &Txt,
) -> Result<(), NameRefusal>
    ensures due { Gives (λ done. done) NameRefusal.Memory (names_due (schema_of catalog.now.tables (meta_view meta.now)) (meta_view meta.now) path.now) result }

    // No two types, no two root fields, and no two fields or inputs of one type have one name.
    ensures differ { OnOk result (names_differ (schema_of catalog.now.tables (meta_view meta.now)) (meta_view meta.now) ≡ true) }
{
    names_of(alloc, catalog, meta, path)
}
