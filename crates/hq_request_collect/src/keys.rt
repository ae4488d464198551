//! The response keys of objects.
ghost use Rattle.std.specs.Prelude.{◌≡◌, ◌&&◌, map, nat_le, length};
ghost use Rattle.hq_request_collect.specs.Keys.{keys_of, narrow_below, is_narrow};
ghost use Rattle.hq_request_collect.specs.TreeSeen.{collected_view, trees_of};

use crate::tree::CollectedField;

// Whether there are at most 50 fields.
fn are_few(fields: &[CollectedField<'_>]) -> bool
    ensures { result ≡ nat_le (length (keys_of (trees_of (map collected_view fields.now)))) 50 }
{
    fields.len() <= 50
}

// Whether each object below a field has at most 50 response keys.
#[cycle(keys)]
fn is_narrow_field(field: &CollectedField<'_>) -> bool
    ensures { result ≡ is_narrow (collected_view field.now).below }
{
    is_narrow(&field.below)
}

// The same of several fields.
#[cycle(keys)]
fn are_narrow(fields: &[CollectedField<'_>]) -> bool
    ensures { result ≡ narrow_below (trees_of (map collected_view fields.now)) }
{
    for field in fields {
        if !is_narrow_field(field) {
            return false;
        }
    }
    true
}

/// Whether each object has at most 50 response keys, that of these fields and all below it.
#[cycle(keys)]
pub fn is_narrow(fields: &[CollectedField<'_>]) -> bool
    ensures { result ≡ is_narrow (trees_of (map collected_view fields.now)) }
{
    are_few(fields) && are_narrow(fields)
}
