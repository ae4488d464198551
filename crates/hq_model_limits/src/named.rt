//! Whether columns may stand in a schema.
ghost use Rattle.std.specs.Prelude.{◌≡◌, ◌==◌, ◌&&◌, true};
ghost use Rattle.std.specs.List.{list_any};
ghost use Rattle.hq_model.specs.Meta.{tracked_view};
ghost use Rattle.hq_model.specs.Names.{is_free_name};
ghost use Rattle.hq_model.specs.Permission.{named_columns};

use hq_base::Txt;
use hq_model::{ColId, ColList, Tracked, has_column, is_free_name};

/// Whether some column of a table has a GraphQL name that may stand in a schema.
pub fn has_named(tracked: &Tracked) -> bool
    ensures { result ≡ list_any (λ c. true) (named_columns (tracked_view tracked.now)) }
{
    for name in tracked.column_names.as_slice() {
        if is_free_name(name) {
            return true;
        }
    }
    false
}

// Whether the column at a place has such a name, and is among these.
fn is_named_of(cols: &ColList, at: usize, name: &Txt) -> bool
    ensures { result ≡ (is_free_name name.now && list_any (λ d. d == at) cols.now) }
{
    is_free_name(name) && has_column(cols.as_slice(), ColId::new(at))
}

/// Whether some column among these has one.
pub fn has_named_of(tracked: &Tracked, cols: &ColList) -> bool
    ensures { result ≡ list_any (λ c. list_any (λ d. d == c) cols.now) (named_columns (tracked_view tracked.now)) }
{
    let names = tracked.column_names.as_slice();
    for (at, name) in names.iter().enumerate() {
        if is_named_of(cols, at, name) {
            return true;
        }
    }
    false
}
