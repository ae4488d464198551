ghost use Rattle.std.specs.Prelude.{◌≡◌, false};
ghost use Rattle.hq_base.specs.Text.{has_zero};

use crate::{Kind, TypeId, TypeOrigin};
use hq_base::Aggregate;
use hq_model::TableId;

/// The types of a table, in the order in which they stand in a schema: the rows, the filters and sorts over them, the columns,
/// and the aggregates. A table that has fewer has none of some aggregates, or of none.
#[derive(Clone, Copy)]
pub enum Part {
    Rows,
    Filter,
    Sort,
    Columns,
    Aggregate,
    AggregateFields,
    /// What one aggregate gives of the columns.
    Aggregated(Aggregate),
}

impl Part {
    ghost use Rattle.hq_schema.specs.Parts.{row_parts, aggregate_parts, part_offset, part_suffix, part_place, part_kind, part_origin};

    /// Those that each table has, in order.
    pub fn of_rows() -> [Part; 4]
        ensures { result ≡ row_parts }
    {
        [Part::Rows, Part::Filter, Part::Sort, Part::Columns]
    }

    /// Those that a table has besides where it may be aggregated, before what single aggregates give.
    pub fn of_aggregates() -> [Part; 2]
        ensures { result ≡ aggregate_parts }
    {
        [Part::Aggregate, Part::AggregateFields]
    }

    /// What follows the table's name in the name of the type.
    pub fn suffix(self) -> &'static str
        ensures suffix { result.now ≡ part_suffix self }
        ensures clean { has_zero result.now ≡ false }
    {
        match self {
            Part::Rows => "",
            Part::Filter => "_bool_exp",
            Part::Sort => "_order_by",
            Part::Columns => "_select_column",
            Part::Aggregate => "_aggregate",
            Part::AggregateFields => "_aggregate_fields",
            Part::Aggregated(aggregate) => aggregate.type_suffix(),
        }
    }

    // How many of the table's types stand before it.
    fn offset(self) -> usize
        ensures { result ≡ part_offset self }
    {
        match self {
            Part::Rows => 0,
            Part::Filter => 1,
            Part::Sort => 2,
            Part::Columns => 3,
            Part::Aggregate => 4,
            Part::AggregateFields => 5,
            Part::Aggregated(_) => 6,
        }
    }

    /// Its place in a schema where the table's types begin at this place. What single aggregates give stands from one place
    /// on, one behind the other.
    pub fn place(self, first: u32) -> TypeId
        ensures { result ≡ part_place first self }
    {
        TypeId::new(first as usize + self.offset())
    }

    /// What it is.
    pub fn kind(self) -> Kind
        ensures { result ≡ part_kind self }
    {
        match self {
            Part::Filter | Part::Sort => Kind::Input,
            Part::Columns => Kind::Enum,
            _ => Kind::Object,
        }
    }

    /// What it stands for.
    pub fn origin(self, table: TableId) -> TypeOrigin
        ensures { result ≡ part_origin self table }
    {
        match self {
            Part::Rows => TypeOrigin::Rows(table),
            Part::Filter => TypeOrigin::Filter(table),
            Part::Sort => TypeOrigin::Sort(table),
            Part::Columns => TypeOrigin::Columns(table),
            Part::Aggregate => TypeOrigin::Aggregate(table),
            Part::AggregateFields => TypeOrigin::AggregateFields(table),
            Part::Aggregated(aggregate) => TypeOrigin::Aggregated(aggregate, table),
        }
    }
}
