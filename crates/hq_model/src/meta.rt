ghost use Rattle.std.specs.Prelude.{◌≡◌, option_copied, slice_get};

use crate::{Bexp, ColId, ColList, RelId, TableId};
use hq_base::{List, Txt};

/// The names of a table's root fields.
#[derive(Drop)]
pub struct RootNames {
    pub select: Txt,
    pub select_aggregate: Txt,
    pub select_by_pk: Txt,
}

/// A column of the table and the column of the remote table that is to equal it.
#[derive(Clone, Copy)]
pub struct Pair {
    pub own: ColId,
    pub remote: ColId,
}

/// The pairs of a relationship.
pub type PairList = List<Pair>;

/// A relationship: an array one where `many`, else an object one.
#[derive(Drop)]
pub struct Rel {
    pub name: Txt,
    pub remote: TableId,
    pub pairs: PairList,
    pub many: bool,
}

/// The relationships of a table, object ones first.
pub type RelList = List<Rel>;

/// A select permission of a role: the columns, the filter, the most rows of a list, and whether aggregates are allowed.
#[derive(Drop)]
pub struct Perm {
    pub role: Txt,
    pub cols: ColList,
    pub filter: Bexp,
    /// In rows.
    pub limit: Option<u64>,
    pub aggregations: bool,
}

/// The permissions of a table.
pub type PermList = List<Perm>;

/// Names, in order.
pub type TxtList = List<Txt>;

/// A tracked table: its GraphQL name, one GraphQL name for each column in the catalog's order, the names of its root
/// fields, its relationships and its permissions.
#[derive(Drop)]
pub struct Tracked {
    pub table: TableId,
    pub name: Txt,
    pub column_names: TxtList,
    pub roots: RootNames,
    pub rels: RelList,
    pub perms: PermList,
}

/// The tracked tables, in the metadata's order.
pub type TrackedList = List<Tracked>;

/// A role that sees together what each role of its set sees.
#[derive(Drop)]
pub struct Inherited {
    pub role: Txt,
    pub set: TxtList,
}

/// Inherited roles, in the metadata's order.
pub type InheritedList = List<Inherited>;

/// What the metadata says: the tracked tables, and the inherited roles.
#[derive(Drop)]
pub struct Meta {
    pub tracked: TrackedList,
    pub inherited: InheritedList,
}

impl Tracked {
    /// A relationship by its place.
    pub fn rel(&self, r: RelId) -> Option<&Rel>
        ensures { option_copied result ≡ slice_get self.now.rels r }
    {
        self.rels.get(r.at())
    }
}
