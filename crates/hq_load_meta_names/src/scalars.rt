//! The scalars of opaque columns, which stand beside the types that are listed.
ghost use Rattle.std.specs.Prelude.{◌≡◌, option_copied};
ghost use Rattle.std.specs.List.{list_all};
ghost use Rattle.hq_model.specs.Schema.{column};
ghost use Rattle.hq_model.specs.SchemaNames.{is_unlike, scalar_of};
ghost use Rattle.hq_model.specs.Described.{scope_schema};

use hq_base::Txt;
use hq_model::{ColId, Described, TableId};

// Whether a scalar, where there is one, has the name of none of these types.
fn is_unlike(types: &[Txt], scalar: Option<&Txt>) -> bool
    ensures { result ≡ is_unlike types.now (option_copied scalar.entry) }
{
    match scalar {
        Some(name) => !types.contains(name),
        None => true,
    }
}

// The same of that of a column.
fn column_is_unlike(scope: &Described, types: &[Txt], t: TableId, col: ColId) -> bool
    ensures { result ≡ is_unlike types.now (scalar_of (column (scope_schema scope.now) t col)) }
{
    match scope.column(t, col) {
        Some(column) => is_unlike(types, column.scalar()),
        None => true,
    }
}

/// Whether the scalars of these columns of a table have the names of none of these types.
pub fn are_unlike(scope: &Described, types: &[Txt], t: TableId, columns: &[ColId]) -> bool
    ensures { result ≡ list_all (λ c. is_unlike types.now (scalar_of (column (scope_schema scope.now) t c))) columns.now }
{
    for column in columns {
        if !column_is_unlike(scope, types, t, *column) {
            return false;
        }
    }
    true
}
