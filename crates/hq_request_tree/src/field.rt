ghost use Rattle.std.specs.Prelude.{◌≡◌};
ghost use Rattle.hq_request_tree.specs.Fields.{field_view, part_view, keyed_field_view, keyed_part_view};

use crate::{AggFields, Args, IntroField};
use hq_base::{List, Txt, Val};
use hq_model::{ColId, RelId, TableId};

/// Values, in order.
pub type ValList = List<Val>;

/// A field of an aggregate (Hasura, Queries: aggregate fields).
#[derive(Drop)]
#[cycle(ask)]
pub enum AggPart {
    /// `aggregate`: what is taken over the selected rows.
    Fields(AggFields),
    /// `nodes`: the selected rows themselves.
    Nodes(AskFields),
    Typename { name: Txt },
}

/// A field of a typed request.
#[derive(Drop)]
#[cycle(ask)]
pub enum AskField {
    /// A column of the row.
    Column {
        col: ColId,
    },
    /// The name of the type that the field stands in.
    Typename {
        name: Txt,
    },
    /// `no_queries_available`.
    NoQueries,
    /// The first row behind an object relationship.
    Object {
        rel: RelId,
        fields: AskFields,
    },
    /// Rows: of the table at the root, where there is no relationship; else those behind an array relationship, whose
    /// remote table is the table.
    List {
        table: TableId,
        rel: Option<RelId>,
        args: Args,
        fields: AskFields,
    },
    /// The row of the table whose key columns have these values.
    ByPk {
        table: TableId,
        key: ValList,
        fields: AskFields,
    },
    /// What is taken over rows, which are those of a list.
    Aggregate {
        table: TableId,
        rel: Option<RelId>,
        args: Args,
        parts: AggParts,
    },
    /// A field of introspection.
    Introspect {
        field: IntroField,
    },
}

/// A field of an aggregate under its response key.
#[derive(Drop)]
#[cycle(ask)]
pub struct KeyedAggPart {
    pub key: Txt,
    pub part: AggPart,
}

/// A field under its response key.
#[derive(Drop)]
#[cycle(ask)]
pub struct KeyedAskField {
    pub key: Txt,
    pub field: AskField,
}

impl KeyedAggPart {
    /// Its response key.
    pub fn key(&self) -> &Txt
        ensures { result.now ≡ (keyed_part_view self.now).0 }
    {
        &self.key
    }

    /// The field of the aggregate.
    pub fn part(&self) -> &AggPart
        ensures { part_view result.now ≡ (keyed_part_view self.now).1 }
    {
        &self.part
    }
}

impl KeyedAskField {
    /// Its response key.
    pub fn key(&self) -> &Txt
        ensures { result.now ≡ (keyed_field_view self.now).0 }
    {
        &self.key
    }

    /// The field.
    pub fn field(&self) -> &AskField
        ensures { field_view result.now ≡ (keyed_field_view self.now).1 }
    {
        &self.field
    }
}

/// The fields of an aggregate, in collected order.
pub type AggParts = Vec<KeyedAggPart>;

/// Fields, in collected order.
pub type AskFields = Vec<KeyedAskField>;
