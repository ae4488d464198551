ghost use Rattle.std.specs.Prelude.{◌≡◌, IfOk, map};
ghost use Rattle.hq_schema.specs.Schema.{arg_view, field_view};
ghost use Rattle.hq_schema_of_role.specs.Fields.{list_args, list_field, aggregate_field, count_args};

use crate::reference::{all_items, non_null, part};
use crate::rows::{Shape, row_args};
use hq_base::{Memory, Txt};
use hq_schema::{ArgDefList, ArgOrigin, FieldDef, FieldOrigin, Fixed, NamedList, Part};
use std::alloc::Global;

/// The arguments of a list of the rows of the table whose types begin at a place.
#[tactic(auto, unfolding(crate::specs::Fields::list_args))]
pub fn list_args(alloc: Global, first: u32) -> Result<ArgDefList, Memory>
    ensures { IfOk result (λ args. map arg_view args ≡ list_args first) }
{
    let columns = Part::Columns.place(first);
    let sorts = Part::Sort.place(first);
    let filter = Part::Filter.place(first);
    let number = Fixed::INT.place();
    let rows = [
        ("distinct_on", Shape::Items, columns, ArgOrigin::DistinctOn),
        ("limit", Shape::One, number, ArgOrigin::Limit),
        ("offset", Shape::One, number, ArgOrigin::Offset),
        ("order_by", Shape::Items, sorts, ArgOrigin::OrderBy),
        ("where", Shape::One, filter, ArgOrigin::Where),
    ];
    NamedList::new(alloc, row_args(alloc, &rows)?)
}

/// A list of that table's rows.
pub fn list_field(
    alloc: Global,
    name: Txt,
    first: u32,
    origin: FieldOrigin,
) -> Result<FieldDef, Memory>
    ensures { IfOk result (λ f. field_view f ≡ list_field name first origin) }
{
    Ok(FieldDef {
        name,
        args: list_args(alloc, first)?,
        ty: all_items(alloc, part(first, Part::Rows))?,
        origin,
    })
}

/// The aggregates over a list of that table's rows.
pub fn aggregate_field(
    alloc: Global,
    name: Txt,
    first: u32,
    origin: FieldOrigin,
) -> Result<FieldDef, Memory>
    ensures { IfOk result (λ f. field_view f ≡ aggregate_field name first origin) }
{
    Ok(FieldDef {
        name,
        args: list_args(alloc, first)?,
        ty: non_null(alloc, part(first, Part::Aggregate))?,
        origin,
    })
}

/// The arguments of the count of that table's rows.
#[tactic(auto, unfolding(crate::specs::Fields::count_args))]
pub fn count_args(alloc: Global, first: u32) -> Result<ArgDefList, Memory>
    ensures { IfOk result (λ args. map arg_view args ≡ count_args first) }
{
    let columns = Part::Columns.place(first);
    let flag = Fixed::BOOLEAN.place();
    let rows = [
        ("columns", Shape::Items, columns, ArgOrigin::Columns),
        ("distinct", Shape::One, flag, ArgOrigin::Distinct),
    ];
    NamedList::new(alloc, row_args(alloc, &rows)?)
}
