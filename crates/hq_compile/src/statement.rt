//! The statement of a typed request.
ghost use Rattle.std.specs.Prelude.{◌≡◌, ◌≤◌, ◌+◌, ◌^◌, [], IfOk, OnOk, length, true, List as Items};
ghost use Rattle.hq_model.specs.Database.{Row, is_database};
ghost use Rattle.hq_model.specs.Fits.{fits};
ghost use Rattle.hq_model.specs.Grants.{grants_of};
ghost use Rattle.hq_model.specs.Meta.{meta_view};
ghost use Rattle.hq_model.specs.Schema.{schema_of};
ghost use Rattle.hq_model.specs.declared.session.Session.{Session as Caller};
ghost use Rattle.hq_request_tree.specs.Request.{ask_view};
ghost use Rattle.hq_request_tree.specs.Resolve.{resolved};
ghost use Rattle.hq_request_tree.specs.Root.{table_fields};
ghost use Rattle.hq_request_tree.specs.Sessions.{IsFor};
ghost use Rattle.hq_request_tree.specs.WellFormed.{IsRequest};
ghost use Rattle.hq_sql_tree.specs.Meaning.{meaning};
ghost use Rattle.hq_sql_tree.specs.WellFormed.{is_statement};
ghost use Rattle.hq_sql_tree.specs.View.{select_view};
ghost use Rattle.hq_sql_text.specs.Readable.{is_readable};
ghost use Rattle.hq_translation.specs.Fields.{fields_numbers};
ghost use Rattle.hq_translation.specs.Statement.{statement};
ghost use Rattle.hq_translation.specs.Asked.{asked_statement, IsHeld};
ghost use Rattle.hq_laws_confine.specs.Own.Asks.{IsAskedConfined};
ghost use Rattle.hq_compile_tables.specs.Contexts.{context_schema, context_granted};
ghost use Rattle.hq_compile.specs.Fields.{fields_view};

use crate::counts::count_fields;
use crate::fields::root_row;
use crate::grants::granted;
use hq_base::Memory;
use hq_compile_lists::{object, one_row};
use hq_compile_tables::Context;
use hq_laws_confine::session_statements_are_confined;
use hq_model::{Catalog, Described, Meta, TableId};
use hq_request_tree::{Ask, AskFields};
use hq_sql_tree::Select;
use hq_translation::{requests_are_asked, requests_mean_resolved};
use std::alloc::Global;

// A number is one of 64 bits.
fn has_64_bits(number: u64)
    ensures { number ≤ 2 ^ 64 }
{}

// The statement of root fields, which stand at the place behind the last table.
fn statement(
    alloc: Global,
    context: &Context,
    root: TableId,
    fields: &AskFields,
) -> Result<Select, Memory>
    requires { root ≡ length (context_schema context.now) }
    ensures tree { IfOk result (λ select. select_view select ≡ statement (table_fields (fields_view fields.now.items)) (context_schema context.now) (context_granted context.now)) }
    ensures numbers { OnOk result (1 + fields_numbers (table_fields (fields_view fields.now.items)) (context_schema context.now) (context_granted context.now) root ≤ 2 ^ 64) }
{
    let mut next = 1;
    let row = root_row(alloc, context, root, fields, &mut next)?;
    has_64_bits(next);
    one_row(alloc, 0, object(row.pairs), row.joins)
}

// The statement of a request, whose texts and numbers a tree can hold.
fn asked(alloc: Global, ask: &Ask, catalog: &Catalog, meta: &Meta) -> Result<Select, Memory>
    ensures tree { IfOk result (λ select. select_view select ≡ asked_statement catalog.now.tables (meta_view meta.now) (ask_view ask.now)) }
    ensures held { OnOk result (IsHeld catalog.now.tables (meta_view meta.now) (ask_view ask.now)) }
{
    let granted = granted(alloc, ask, catalog, meta)?;
    let context = Context {
        scope: Described { catalog, meta },
        granted: &granted,
    };
    let root = TableId::new(catalog.tables.len());
    count_fields(alloc, &context, root, &ask.fields)?;
    statement(alloc, &context, root, &ask.fields)
}

/// The one statement that answers the root fields of a request that start at a table.
pub fn compile(alloc: Global, ask: &Ask, catalog: &Catalog, meta: &Meta) -> Result<Select, Memory>
    requires fit { fits catalog.now.tables (meta_view meta.now) ≡ true }
    requires request { IsRequest catalog.now.tables (meta_view meta.now) (ask_view ask.now) }
    ensures tree { IfOk result (λ select. select_view select ≡ asked_statement catalog.now.tables (meta_view meta.now) (ask_view ask.now)) }

    // It is well-formed for the catalog, and it has a text that is read back.
    ensures well_formed { OnOk result (is_statement (asked_statement catalog.now.tables (meta_view meta.now) (ask_view ask.now)) catalog.now.tables ≡ true) }
    ensures readable { OnOk result (is_readable (asked_statement catalog.now.tables (meta_view meta.now) (ask_view ask.now)) ≡ true) }

    // Over every database of the catalog it means what nested resolvers give over the rows that the session may see.
    ensures means { OnOk result ((session : Caller) (d : Items (Items Row)) → IsFor (schema_of catalog.now.tables (meta_view meta.now)) (meta_view meta.now) session (ask_view ask.now) →
        is_database catalog.now.tables d ≡ true →
        meaning (asked_statement catalog.now.tables (meta_view meta.now) (ask_view ask.now)) (record { tables = catalog.now.tables; database = d })
        ≡ resolved (table_fields (ask_view ask.now).fields) (schema_of catalog.now.tables (meta_view meta.now)) (grants_of session catalog.now.tables (meta_view meta.now)) d) }

    // It is confined for that session: the checker of statements says yes to it.
    ensures confined { OnOk result ((session : Caller) → IsFor (schema_of catalog.now.tables (meta_view meta.now)) (meta_view meta.now) session (ask_view ask.now) →
        IsAskedConfined catalog.now.tables (meta_view meta.now) session (ask_view ask.now)) }
{
    let select = asked(alloc, ask, catalog, meta)?;
    select.fits();
    requests_are_asked();
    requests_mean_resolved();
    session_statements_are_confined();
    Ok(select)
}
