//! Making a redacted copy.
ghost use Rattle.std.specs.Prelude.{◌≡◌, ◌≢◌, ◌≤◌, ◌<◌, ◌++◌, ◌∷◌, [], ℕ, IfErr, IfOk, IfSome, OnOk, Some, slice_get, true, false, length};
ghost use Rattle.hq_copy_definition.specs.Metadata.{copied_meta};
ghost use Rattle.hq_copy_definition.specs.Refusals.{or_else};
ghost use Rattle.hq_copy_definition.specs.Sources.{links, sources};
ghost use Rattle.hq_copy_definition.specs.Tables.{copied_tables};
ghost use Rattle.hq_copy_tables.specs.Originals.{IsOriginal, meta_in, role_in, schema_in};
ghost use Rattle.hq_copy_filter.specs.Lent.{database_of};
ghost use Rattle.hq_copy.specs.Granted.{granted_due};
ghost use Rattle.hq_copy.specs.Plans.{PlannedFor};
ghost use Rattle.hq_copy.specs.Redacting.{Redacts, TellsRise, copy_due, described_refusal, redacted_view, refusal_in};
ghost use Rattle.hq_copy.specs.Refused.{Refuses};
ghost use Rattle.hq_model.specs.Catalog.{is_catalog};
ghost use Rattle.hq_model.specs.Database.{are_rows, is_database};
ghost use Rattle.hq_model.specs.Fits.{fits};
ghost use Rattle.hq_model.specs.Meta.{meta_view};
ghost use Rattle.hq_model.specs.Permission.{role_of};
ghost use Rattle.hq_model.specs.declared.table.Table.{Table as CatalogTable};

use crate::Redacted;
use crate::binding::granted;
use crate::copying::all_copied_rows;
use crate::files::check_files;
use crate::kept_names::check_kept_names;
use crate::schema_names::check_schema_names;
use crate::sizes::{check_keys, check_widths};
use hq_base::{List, Memory};
use hq_copy_definition::CopyRefusal;
use hq_copy_filter::{all_rows, pin_all};
use hq_copy_tables::{Original, copied_meta, copied_tables, links, sources};
use hq_laws_copy::{copied_metadata_fits, copied_rows_fit};
use hq_load_tables::{RowList, Rows, RowsList, StoreRefusal, Tables};
use hq_model::{Catalog, Described, Meta, PermView, Role, Session, Table, TableList};
use std::alloc::Global;

/// The catalog and the metadata of a copy, and what the session is granted of its tables.
#[derive(Drop)]
pub struct Plan {
    pub tables: TableList,
    pub meta: Meta,
    pub grants: List<PermView>,
}

// Refuses what catalog and metadata tell.
fn check_plan(
    alloc: Global,
    original: &Original<'_>,
    tables: &TableList,
    meta: &Meta,
) -> Result<(), CopyRefusal>
    requires original { IsOriginal original.now }
    requires tables { tables.now ≡ copied_tables (role_in original.now) (meta_in original.now) (schema_in original.now) }
    requires meta { meta_view meta.now ≡ copied_meta (role_in original.now) (meta_in original.now) (schema_in original.now) }
    ensures { Refuses (described_refusal (role_in original.now) (meta_in original.now) (schema_in original.now)) result }
{
    let tables = tables.as_slice();
    check_kept_names(alloc, original)?;
    check_schema_names(alloc, tables, meta)?;
    check_keys(alloc, original)?;
    check_widths(alloc, tables)
}

// What a copy is to hold, where neither catalog, metadata nor session refuse it.
fn planned(alloc: Global, original: &Original<'_>, session: &Session) -> Result<Plan, CopyRefusal>
    requires { IsOriginal original.now }
    ensures plan { IfOk result (PlannedFor (role_in original.now) (meta_in original.now) (schema_in original.now) session.now.vars) }
    ensures refused { Refuses
        (or_else
        (refusal_in (granted_due (schema_in original.now) session.now.vars (sources (role_in original.now) (meta_in original.now))))
        (described_refusal (role_in original.now) (meta_in original.now) (schema_in original.now)))
        result }
{
    let grants = granted(alloc, &original.scope, session, original.sources)?;
    let tables = copied_tables(alloc, original)?;
    let meta = copied_meta(alloc, original)?;
    check_plan(alloc, original, &tables, &meta)?;
    Ok(Plan {
        tables,
        meta,
        grants,
    })
}

// The rows of the table at this place, behind those of others.
fn push_rows(
    alloc: Global,
    tables: &[Table],
    at: usize,
    rows: RowList,
    all: &mut RowsList,
) -> Result<(), Memory>
    requires within { at < length tables.now }
    requires valid { (t : CatalogTable) → slice_get tables.now at ≡ Some t → are_rows t rows ≡ true }
    ensures { OnOk result (all.new ≡ all.old ++ rows ∷ []) }
{
    all.push(Rows::of(alloc, rows, &tables[at])?)
}

// The rows of tables, each valid for its table.
fn rows_list(alloc: Global, catalog: &Catalog, lists: Vec<RowList>) -> Result<RowsList, Memory>
    requires { is_database catalog.now.tables lists.items ≡ true }
    ensures { IfOk result (λ rows. rows ≡ lists.items) }
{
    let tables = catalog.tables.as_slice();
    let mut all = List::new(alloc);
    let mut at = 0;
    for rows in lists {
        push_rows(alloc, tables, at, rows, &mut all)?;
        at += 1;
    }
    Ok(all)
}

// A copy of these tables, this metadata and these rows.
fn copy_of(
    alloc: Global,
    tables: TableList,
    meta: Meta,
    lists: Vec<RowList>,
) -> Result<Redacted, Memory>
    requires catalog { is_catalog tables ≡ true }
    requires fits { fits tables (meta_view meta) ≡ true }
    requires valid { is_database tables lists.items ≡ true }
    ensures { IfOk result (λ r. redacted_view r ≡ record { tables = tables; meta = meta_view meta; rows = lists.items }) }
{
    let catalog = Catalog { tables };
    let rows = rows_list(alloc, &catalog, lists)?;
    Ok(Redacted {
        catalog,
        meta,
        rows,
    })
}

// The copy that a plan makes of the rows of all tables.
fn made(
    alloc: Global,
    original: &Original<'_>,
    session: &Session,
    plan: Plan,
    rows: &[&Rows],
) -> Result<Redacted, CopyRefusal>
    requires original { IsOriginal original.now }
    requires role { role_in original.now ≡ role_of session.now.role }
    requires plan { PlannedFor (role_in original.now) (meta_in original.now) (schema_in original.now) session.now.vars plan }
    requires catalog { is_catalog original.now.scope.catalog.now.tables ≡ true }
    requires fits { fits original.now.scope.catalog.now.tables (meta_in original.now) ≡ true }
    requires valid { is_database original.now.scope.catalog.now.tables (database_of rows.now) ≡ true }
    ensures due { Redacts (copy_due original.now.scope.catalog.now.tables (meta_in original.now) session.now (database_of rows.now)) result }
    ensures failed { IfErr result (λ e. (before after : ℕ) → e ≢ CopyRefusal.Failed before after) }
{
    copied_metadata_fits();
    copied_rows_fit();
    let Plan {
        tables,
        meta,
        grants,
    } = plan;
    let lists = all_copied_rows(alloc, original, grants.as_slice(), rows)?;
    check_files(alloc, tables.as_slice(), &lists)?;
    Ok(copy_of(alloc, tables, meta, lists)?)
}

// The copy that a plan makes of tables that are pinned.
fn copied<T: Tables>(
    alloc: Global,
    original: &Original<'_>,
    session: &Session,
    plan: Plan,
    tables: &T,
) -> Result<Redacted, CopyRefusal>
    requires original { IsOriginal original.now }
    requires role { role_in original.now ≡ role_of session.now.role }
    requires plan { PlannedFor (role_in original.now) (meta_in original.now) (schema_in original.now) session.now.vars plan }
    requires fits { fits original.now.scope.catalog.now.tables (meta_in original.now) ≡ true }
    requires tables { original.now.scope.catalog.now.tables ≡ T.tables tables.now }
    requires pinned { (t : ℕ) → t < length (T.tables tables.now) → T.is_pinned tables.now t ≡ true }
    ensures due { IfSome (T.database tables.now) (λ d. Redacts (copy_due original.now.scope.catalog.now.tables (meta_in original.now) session.now d) result) }
    ensures failed { IfErr result (λ e. (before after : ℕ) → e ≢ CopyRefusal.Failed before after) }
{
    let rows = all_rows(alloc, tables)?;
    made(alloc, original, session, plan, &rows)
}

// The copy that a plan makes of tables, which are pinned for it.
fn pinned<T: Tables>(
    alloc: Global,
    original: &Original<'_>,
    session: &Session,
    plan: Plan,
    tables: &mut T,
) -> Result<Redacted, CopyRefusal>
    requires original { IsOriginal original.now }
    requires role { role_in original.now ≡ role_of session.now.role }
    requires plan { PlannedFor (role_in original.now) (meta_in original.now) (schema_in original.now) session.now.vars plan }
    requires fits { fits original.now.scope.catalog.now.tables (meta_in original.now) ≡ true }
    requires tables { original.now.scope.catalog.now.tables ≡ T.tables tables.old }
    ensures due { IfSome (T.database tables.old) (λ d. Redacts (copy_due original.now.scope.catalog.now.tables (meta_in original.now) session.now d) result) }
    ensures failed { IfErr result (TellsRise (T.faults tables.old) (T.faults tables.new)) }
    ensures same_tables { T.tables tables.new ≡ T.tables tables.old }
    ensures database { T.database tables.new ≡ T.database tables.old }
    ensures later { T.faults tables.old ≤ T.faults tables.new }
{
    let before = tables.faults();
    match pin_all(alloc, tables) {
        Ok(()) => copied(alloc, original, session, plan, &*tables),
        Err(StoreRefusal::Failed { .. }) => Err(CopyRefusal::Failed {
            before,
            after: tables.faults(),
        }),
        Err(StoreRefusal::Memory) => Err(CopyRefusal::Memory),
    }
}

// The copy of what is seen.
fn copied_for<T: Tables>(
    alloc: Global,
    original: &Original<'_>,
    session: &Session,
    tables: &mut T,
) -> Result<Redacted, CopyRefusal>
    requires original { IsOriginal original.now }
    requires role { role_in original.now ≡ role_of session.now.role }
    requires fits { fits original.now.scope.catalog.now.tables (meta_in original.now) ≡ true }
    requires tables { original.now.scope.catalog.now.tables ≡ T.tables tables.old }
    ensures due { IfSome (T.database tables.old) (λ d. Redacts (copy_due original.now.scope.catalog.now.tables (meta_in original.now) session.now d) result) }
    ensures failed { IfErr result (TellsRise (T.faults tables.old) (T.faults tables.new)) }
    ensures same_tables { T.tables tables.new ≡ T.tables tables.old }
    ensures database { T.database tables.new ≡ T.database tables.old }
    ensures later { T.faults tables.old ≤ T.faults tables.new }
{
    let plan = planned(alloc, original, session)?;
    pinned(alloc, original, session, plan, tables)
}

// The copy for a session's role.
fn copied_by<T: Tables>(
    alloc: Global,
    scope: Described<'_>,
    session: &Session,
    tables: &mut T,
) -> Result<Redacted, CopyRefusal>
    requires fits { fits scope.catalog.now.tables (meta_view scope.meta.now) ≡ true }
    requires tables { scope.catalog.now.tables ≡ T.tables tables.old }
    ensures due { IfSome (T.database tables.old) (λ d. Redacts (copy_due scope.entry.catalog.now.tables (meta_view scope.entry.meta.now) session.now d) result) }
    ensures failed { IfErr result (TellsRise (T.faults tables.old) (T.faults tables.new)) }
    ensures same_tables { T.tables tables.new ≡ T.tables tables.old }
    ensures database { T.database tables.new ≡ T.database tables.old }
    ensures later { T.faults tables.old ≤ T.faults tables.new }
{
    let role = Role::of(alloc, session)?;
    let sources = sources(alloc, scope.meta, &role)?;
    let links = links(alloc, &scope, &role, &sources)?;
    let original = Original {
        scope,
        role: &role,
        sources: &sources,
        links: &links,
    };
    copied_for(alloc, &original, session, tables)
}

/// The redacted copy of a database for a session, or the first refusal: of a filter whose operand has no value, of a name that is
/// taken, of a masked key, of a table that is too wide, of rows that cannot be read, and of texts that a file would not give back,
/// in this order. Nothing is pinned afterwards.
pub fn redact<T: Tables>(
    alloc: Global,
    catalog: &Catalog,
    meta: &Meta,
    session: &Session,
    tables: &mut T,
) -> Result<Redacted, CopyRefusal>
    requires fits { fits catalog.now.tables (meta_view meta.now) ≡ true }
    requires tables { catalog.now.tables ≡ T.tables tables.old }
    ensures due { IfSome (T.database tables.old) (λ d. Redacts (copy_due catalog.now.tables (meta_view meta.now) session.now d) result) }
    ensures failed { IfErr result (TellsRise (T.faults tables.old) (T.faults tables.new)) }
    ensures released { (t : ℕ) → T.is_pinned tables.new t ≡ false }
    ensures same_tables { T.tables tables.new ≡ T.tables tables.old }
    ensures database { T.database tables.new ≡ T.database tables.old }
    ensures later { T.faults tables.old ≤ T.faults tables.new }
{
    tables.release();
    let copy = copied_by(alloc, Described { catalog, meta }, session, tables);
    tables.release();
    copy
}
