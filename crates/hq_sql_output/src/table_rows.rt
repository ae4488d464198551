//! Rows of a table, whose cells are read by the numbers of their columns.
ghost use Rattle.std.specs.Prelude.{IfSome};
ghost use Rattle.hq_sql_output.specs.TableRows.{IsNamed, IsTable};

use hq_base::Txt;
use hq_load_tables::Rows;
use hq_model::{ColId, Column};
use hq_sql_access::equations::first_named;
use hq_sql_access::scope::Source;

/// The rows of a table, with its columns.
#[derive(Clone, Copy)]
pub struct TableRows<'d> {
    pub columns: &'d [Column],
    pub rows: &'d Rows,
}

/// The table whose rows a FROM gives; None of other rows.
#[tactic(auto, using(hq_sql_access::proofs::NamedCells::stored_row))]
pub fn table_rows<'s, 'd>(source: Source<'s, 'd>) -> Option<TableRows<'d>>
    ensures { IfSome result (IsTable source.entry) }
{
    let Source::Stored(stored) = source else {
        return None;
    };
    match stored.rows {
        Some(rows) => Some(TableRows {
            columns: stored.table.columns.as_slice(),
            rows,
        }),
        None => None,
    }
}

/// The first column of this name.
#[tactic(auto, using(crate::proofs::TableCells::named_is))]
pub fn column_named(columns: &[Column], name: &Txt) -> Option<ColId>
    ensures { IfSome result (IsNamed columns.now name.now) }
{
    match first_named(columns, name) {
        Some(at) => Some(ColId::new(at)),
        None => None,
    }
}
