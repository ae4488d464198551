//! Two fields that can merge, or cannot.
ghost use Rattle.std.specs.Prelude.{◌≡◌, true, IfOk};
ghost use Rattle.hq_schema.specs.Schema.{schema_view};
ghost use Rattle.hq_gql_tree.specs.Selections.{field_view};
ghost use Rattle.hq_overlap_sets.specs.Places.{same_label, cannot_merge};
ghost use Rattle.hq_overlap_sets.specs.Pairs.{SameLabel};
ghost use Rattle.hq_overlap_sets.specs.Sets.{label_of, entry_view};

use crate::arguments::same_arguments;
use crate::sets::Entry;
use crate::shapes::same_shape;
use hq_base::Memory;
use hq_gql_tree::Field;
use hq_schema::Schema;
use std::alloc::Global;

/// Whether two fields share name and arguments.
pub fn same_label(alloc: Global, left: &Field, right: &Field) -> Result<bool, Memory>
    ensures { IfOk result (λ same. same ≡ same_label (label_of (field_view left.now).0) (label_of (field_view right.now).0)) }
{
    if left.name != right.name {
        return Ok(false);
    }
    same_arguments(alloc, &left.args, &right.args)
}

/// Whether two fields of one key cannot merge.
pub fn cannot_merge(
    alloc: Global,
    schema: &Schema,
    left: &Entry<'_>,
    right: &Entry<'_>,
) -> Result<bool, Memory>
    ensures { IfOk result (λ apart. apart ≡ cannot_merge (entry_view (schema_view schema.now) left.now) (entry_view (schema_view schema.now) right.now)) }
{
    if !same_shape(schema, &left.def.ty, &right.def.ty) {
        return Ok(true);
    }
    if left.parent != right.parent {
        return Ok(false);
    }
    let same = same_label(alloc, left.field, right.field)?;
    Ok(!same)
}

/// Whether a field shares its shape with one, and name and arguments with another one.
pub fn are_alike(
    alloc: Global,
    schema: &Schema,
    first: &Entry<'_>,
    label: &Entry<'_>,
    entry: &Entry<'_>,
) -> Result<bool, Memory>
    ensures { IfOk result
        (λ alike. alike ≡ true
        → ((entry_view (schema_view schema.now) first.now).shape ≡ (entry_view (schema_view schema.now) entry.now).shape)
        × SameLabel (entry_view (schema_view schema.now) label.now).label (entry_view (schema_view schema.now) entry.now).label) }
{
    if !same_shape(schema, &first.def.ty, &entry.def.ty) {
        return Ok(false);
    }
    same_label(alloc, label.field, entry.field)
}
